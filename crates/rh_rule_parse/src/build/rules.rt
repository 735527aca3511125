//! Forms of statements, and rules.

ghost use Rattle.std.specs.Prelude.{◌≡◌, ◌≤◌, ◌∷◌, [], length, IfOk};
ghost use Rattle.rh_grammar.specs.declared.grammar.Symbol.TheVariants.{Rule, Token};
ghost use Rattle.rh_rule_parse.specs.Cursor.{Reads};
ghost use Rattle.rh_rule_source.specs.Grammar.{OPEN_PAREN, CLOSE_PAREN, mbase, wbase, relation, operation, right, form, pattern, fact_use, sterm, cond, when, metas, slot, conclusion, rule};
ghost use Rattle.rh_rule_source.specs.Source.{params_words, operation_rest, right_words, bracketed_operand_words, form_words, pattern_words, use_words, side_words, cond_words, when_words, slot_word, conclusion_words, rule_words};

use crate::cursor::Cursor;
use rh_il::{Op, Slot};
use rh_list::Items;
use rh_rule_source::grammar::production;
use rh_rule_source::{
    SourceBase, SourceConclusion, SourceCond, SourceForm, SourceOperand, SourceOperation,
    SourceParam, SourcePattern, SourceRight, SourceRule, SourceSide, SourceUse,
};
use std::alloc::{AllocError, Global};

impl Cursor<'_> {
    #[tactic(auto, unfolding(rh_rule_source::specs::Grammar::productions))]
    pub(crate) fn operation(&mut self) -> Option<(Op, SourceBase)>
        ensures reads { Reads (Rule operation ∷ []) operation_rest self.old self.new result }
        ensures shrinks { length self.new.productions.now ≤ length self.old.productions.now }
    {
        match self.choose() {
            production::OPERATION => {
                let op = self.op();
                let right = self.base();
                Some((op, right))
            }
            _ => None,
        }
    }

    pub(crate) fn computing_right(&mut self) -> SourceRight
        ensures reads { Reads (Rule mbase ∷ Rule operation ∷ []) right_words self.old self.new result }
        ensures shrinks { length self.new.productions.now ≤ length self.old.productions.now }
    {
        let left = self.base();
        match self.operation() {
            Some((op, right)) => SourceRight::Compute(SourceOperation { left, op, right }),
            None => SourceRight::Plain(left),
        }
    }

    pub(crate) fn bracketed_operand(&mut self) -> SourceOperand
        ensures reads { Reads (Token OPEN_PAREN ∷ Rule wbase ∷ Token CLOSE_PAREN ∷ []) bracketed_operand_words self.old self.new result }
        ensures shrinks { length self.new.productions.now ≤ length self.old.productions.now }
    {
        self.skip();
        let operand = self.operand();
        self.skip();
        operand
    }

    #[tactic(auto, unfolding(rh_rule_source::specs::Grammar::productions))]
    pub(crate) fn right(&mut self) -> SourceRight
        ensures reads { Reads (Rule right ∷ []) right_words self.old self.new result }
        ensures shrinks { length self.new.productions.now ≤ length self.old.productions.now }
    {
        match self.choose() {
            production::ANY_RIGHT => {
                self.skip();
                SourceRight::Any
            }
            production::NEW_RIGHT => {
                self.skip();
                SourceRight::New
            }
            production::ADDRESS_RIGHT => {
                self.skip();
                SourceRight::Address(self.upper())
            }
            production::LOAD_RIGHT => {
                self.skip();
                SourceRight::Load(self.upper())
            }
            production::CALL_RIGHT => {
                self.skip();
                SourceRight::Call(self.bracketed_operand())
            }
            _ => self.computing_right(),
        }
    }

    #[tactic(auto, unfolding(rh_rule_source::specs::Grammar::productions))]
    pub(crate) fn form(&mut self) -> SourceForm
        ensures reads { Reads (Rule form ∷ []) form_words self.old self.new result }
        ensures shrinks { length self.new.productions.now ≤ length self.old.productions.now }
    {
        match self.choose() {
            production::SKIP_FORM => {
                self.skip();
                SourceForm::Skip
            }
            production::WRITE_FORM => {
                self.skip();
                let to = self.upper();
                self.skip();
                SourceForm::Write(to, self.operand())
            }
            production::IF_FORM => {
                self.skip();
                SourceForm::If(self.operand())
            }
            production::RETURN_FORM => {
                self.skip();
                SourceForm::Return(self.operand())
            }
            _ => {
                let to = self.upper();
                self.skip();
                SourceForm::Assign(to, self.right())
            }
        }
    }

    #[tactic(auto, unfolding(rh_rule_source::specs::Grammar::productions))]
    pub(crate) fn pattern(&mut self) -> SourcePattern
        ensures reads { Reads (Rule pattern ∷ []) pattern_words self.old self.new result }
        ensures shrinks { length self.new.productions.now ≤ length self.old.productions.now }
    {
        match self.choose() {
            production::ENTRY_PATTERN => {
                self.skip();
                SourcePattern::Entry(self.bracketed_name())
            }
            production::GOTO_PATTERN => {
                self.skip();
                SourcePattern::Goto
            }
            _ => SourcePattern::Form(self.form()),
        }
    }

    pub(crate) fn fact_use(&mut self, alloc: Global) -> Result<SourceUse, AllocError>
        ensures reads { IfOk result (Reads (Rule fact_use ∷ []) use_words self.old self.new) }
        ensures shrinks { length self.new.productions.now ≤ length self.old.productions.now }
    {
        self.choose();
        let name = self.lower();
        self.skip();
        let args = self.separated(alloc, production::MORE_ARGS)?;
        self.skip();
        Ok(SourceUse { name, args })
    }

    #[tactic(auto, unfolding(rh_rule_source::specs::Grammar::productions))]
    pub(crate) fn side_value(&mut self) -> SourceSide
        ensures reads { Reads (Rule sterm ∷ []) side_words self.old self.new result }
        ensures shrinks { length self.new.productions.now ≤ length self.old.productions.now }
    {
        match self.choose() {
            production::COMPUTED_SIDE => SourceSide::Compute(self.computed()),
            _ => SourceSide::Plain(self.base()),
        }
    }

    pub(crate) fn side(&mut self) -> SourceCond
        ensures reads { Reads (Rule sterm ∷ Rule relation ∷ Rule sterm ∷ []) cond_words self.old self.new result }
        ensures shrinks { length self.new.productions.now ≤ length self.old.productions.now }
    {
        let left = self.side_value();
        let relation = self.relation();
        let right = self.side_value();
        SourceCond::Side(left, relation, right)
    }

    #[tactic(auto, unfolding(rh_rule_source::specs::Grammar::productions))]
    pub(crate) fn cond(&mut self, alloc: Global) -> Result<SourceCond, AllocError>
        ensures reads { IfOk result (Reads (Rule cond ∷ []) cond_words self.old self.new) }
        ensures shrinks { length self.new.productions.now ≤ length self.old.productions.now }
    {
        match self.choose() {
            production::FACT_COND => {
                let premise = self.fact_use(alloc)?;
                self.skip();
                self.skip();
                Ok(SourceCond::Fact(premise))
            }
            _ => Ok(self.side()),
        }
    }

    #[tactic(auto, unfolding(rh_rule_source::specs::Grammar::productions))]
    pub(crate) fn when(&mut self, alloc: Global) -> Result<Items<SourceCond>, AllocError>
        ensures reads { IfOk result (Reads (Rule when ∷ []) when_words self.old self.new) }
        ensures shrinks { length self.new.productions.now ≤ length self.old.productions.now }
    {
        match self.choose() {
            production::WHEN_CONDS => {
                self.skip();
                self.separated(alloc, production::MORE_CONDS)
            }
            _ => Ok(Items::new(alloc)),
        }
    }

    #[tactic(auto, unfolding(rh_rule_source::specs::Grammar::productions))]
    pub(crate) fn metas(&mut self, alloc: Global) -> Result<Items<SourceParam>, AllocError>
        ensures reads { IfOk result (Reads (Rule metas ∷ []) params_words self.old self.new) }
        ensures shrinks { length self.new.productions.now ≤ length self.old.productions.now }
    {
        match self.choose() {
            production::SOME_METAS => self.separated(alloc, production::MORE_PARAMS),
            _ => Ok(Items::new(alloc)),
        }
    }

    #[tactic(auto, unfolding(rh_rule_source::specs::Grammar::productions))]
    pub(crate) fn slot(&mut self) -> Slot
        ensures reads { Reads (Rule slot ∷ []) (λ slot. slot_word slot ∷ []) self.old self.new result }
        ensures shrinks { length self.new.productions.now ≤ length self.old.productions.now }
    {
        let number = self.choose();
        self.skip();
        match number {
            production::OUT_SLOT => Slot::Out,
            production::THEN_SLOT => Slot::Then,
            _ => Slot::Else,
        }
    }

    #[tactic(auto, unfolding(rh_rule_source::specs::Grammar::productions))]
    pub(crate) fn conclusion(&mut self, alloc: Global) -> Result<SourceConclusion, AllocError>
        ensures reads { IfOk result (Reads (Rule conclusion ∷ []) conclusion_words self.old self.new) }
        ensures shrinks { length self.new.productions.now ≤ length self.old.productions.now }
    {
        match self.choose() {
            production::FACT_CONCLUSION => {
                let fact = self.fact_use(alloc)?;
                self.skip();
                Ok(SourceConclusion::Fact(fact, self.slot()))
            }
            _ => {
                self.skip();
                Ok(SourceConclusion::Transform(self.form()))
            }
        }
    }

    pub(crate) fn rule(&mut self, alloc: Global) -> Result<SourceRule, AllocError>
        ensures reads { IfOk result (Reads (Rule rule ∷ []) rule_words self.old self.new) }
        ensures shrinks { length self.new.productions.now ≤ length self.old.productions.now }
    {
        self.choose();
        self.skip();
        let name = self.lower();
        self.skip();
        let params = self.metas(alloc)?;
        self.skip();
        self.skip();
        let pattern = self.pattern();
        let conds = self.when(alloc)?;
        self.skip();
        let conclusion = self.conclusion(alloc)?;
        self.skip();
        Ok(SourceRule {
            name,
            params,
            pattern,
            conds,
            conclusion,
        })
    }
}

//! Operands, operators, parameters and facts.

ghost use Rattle.std.specs.Prelude.{◌≡◌, ◌≤◌, ◌∷◌, [], length, IfOk};
ghost use Rattle.rh_grammar.specs.declared.grammar.Symbol.TheVariants.{Rule, Token};
ghost use Rattle.rh_rule_parse.specs.Cursor.{Reads};
ghost use Rattle.rh_rule_source.specs.Grammar.{UPPER, OPEN_PAREN, CLOSE_PAREN, size, num, mbase, wbase, op, relation, param, mterm, atom, fact};
ghost use Rattle.rh_rule_source.specs.Source.{base_words, operand_words, op_word, relation_word, computed_words, param_words, bracketed_name_words, term_words, bracketed_words, atom_words, fact_words};
ghost use Rattle.rh_rule_source.specs.declared.word.Word.TheVariants.{Number};

use crate::cursor::Cursor;
use rh_il::Op;
use rh_rule::Kind;
use rh_rule_source::grammar::production;
use rh_rule_source::{
    Relation, SourceAtom, SourceBase, SourceFact, SourceOperand, SourceOperation, SourceParam,
    SourceTerm, Spelled,
};
use std::alloc::{AllocError, Global};

impl Cursor<'_> {
    pub(crate) fn size(&mut self) -> u64
        ensures reads { Reads (Rule size ∷ []) (λ n. Number n ∷ []) self.old self.new result }
        ensures shrinks { length self.new.productions.now ≤ length self.old.productions.now }
    {
        self.choose();
        self.number()
    }

    #[tactic(auto, unfolding(rh_rule_source::specs::Grammar::productions))]
    pub(crate) fn num(&mut self) -> SourceBase
        ensures reads { Reads (Rule num ∷ []) base_words self.old self.new result }
        ensures shrinks { length self.new.productions.now ≤ length self.old.productions.now }
    {
        match self.choose() {
            production::NEGATIVE => {
                self.skip();
                let size = self.size();
                SourceBase::Num {
                    negative: true,
                    size,
                }
            }
            _ => {
                let size = self.number();
                SourceBase::Num {
                    negative: false,
                    size,
                }
            }
        }
    }

    #[tactic(auto, unfolding(rh_rule_source::specs::Grammar::productions))]
    pub(crate) fn base(&mut self) -> SourceBase
        ensures reads { Reads (Rule mbase ∷ []) base_words self.old self.new result }
        ensures shrinks { length self.new.productions.now ≤ length self.old.productions.now }
    {
        match self.choose() {
            production::NAMED_BASE => SourceBase::Named(self.upper()),
            _ => self.num(),
        }
    }

    #[tactic(auto, unfolding(rh_rule_source::specs::Grammar::productions))]
    pub(crate) fn operand(&mut self) -> SourceOperand
        ensures reads { Reads (Rule wbase ∷ []) operand_words self.old self.new result }
        ensures shrinks { length self.new.productions.now ≤ length self.old.productions.now }
    {
        match self.choose() {
            production::WILD_BASE => {
                self.skip();
                SourceOperand::Wild
            }
            _ => SourceOperand::Plain(self.base()),
        }
    }

    #[tactic(auto, unfolding(rh_rule_source::specs::Grammar::productions))]
    pub(crate) fn op(&mut self) -> Op
        ensures reads { Reads (Rule op ∷ []) (λ op. op_word op ∷ []) self.old self.new result }
        ensures shrinks { length self.new.productions.now ≤ length self.old.productions.now }
    {
        let number = self.choose();
        self.skip();
        match number {
            production::ADD_OP => Op::Add,
            production::SUB_OP => Op::Sub,
            production::MUL_OP => Op::Mul,
            production::LESS_OP => Op::Less,
            _ => Op::Equal,
        }
    }

    #[tactic(auto, unfolding(rh_rule_source::specs::Grammar::productions))]
    pub(crate) fn relation(&mut self) -> Relation
        ensures reads { Reads (Rule relation ∷ []) (λ r. relation_word r ∷ []) self.old self.new result }
        ensures shrinks { length self.new.productions.now ≤ length self.old.productions.now }
    {
        let number = self.choose();
        self.skip();
        match number {
            production::EQUAL_RELATION => Relation::Same,
            _ => Relation::Differ,
        }
    }

    /// `(b op c)`
    pub(crate) fn computed(&mut self) -> SourceOperation
        ensures reads { Reads (Token OPEN_PAREN ∷ Rule mbase ∷ Rule op ∷ Rule mbase ∷ Token CLOSE_PAREN ∷ []) computed_words self.old self.new result }
        ensures shrinks { length self.new.productions.now ≤ length self.old.productions.now }
    {
        self.skip();
        let left = self.base();
        let op = self.op();
        let right = self.base();
        self.skip();
        SourceOperation { left, op, right }
    }

    #[tactic(auto, unfolding(rh_rule_source::specs::Grammar::productions))]
    pub(crate) fn param(&mut self) -> SourceParam
        ensures reads { Reads (Rule param ∷ []) param_words self.old self.new result }
        ensures shrinks { length self.new.productions.now ≤ length self.old.productions.now }
    {
        let number = self.choose();
        self.skip();
        let name = self.upper();
        match number {
            production::VAR_PARAM => SourceParam {
                kind: Kind::Var,
                name,
            },
            _ => SourceParam {
                kind: Kind::Const,
                name,
            },
        }
    }

    /// `(X)`
    pub(crate) fn bracketed_name(&mut self) -> Spelled
        ensures reads { Reads (Token OPEN_PAREN ∷ Token UPPER ∷ Token CLOSE_PAREN ∷ []) bracketed_name_words self.old self.new result }
        ensures shrinks { length self.new.productions.now ≤ length self.old.productions.now }
    {
        self.skip();
        let name = self.upper();
        self.skip();
        name
    }

    #[tactic(auto, unfolding(rh_rule_source::specs::Grammar::productions))]
    pub(crate) fn term(&mut self) -> SourceTerm
        ensures reads { Reads (Rule mterm ∷ []) term_words self.old self.new result }
        ensures shrinks { length self.new.productions.now ≤ length self.old.productions.now }
    {
        match self.choose() {
            production::ADDRESS_TERM => {
                self.skip();
                SourceTerm::Address(self.upper())
            }
            production::DEREF_TERM => {
                self.skip();
                SourceTerm::Deref(self.upper())
            }
            production::COMPUTED_TERM => SourceTerm::Compute(self.computed()),
            _ => SourceTerm::Plain(self.base()),
        }
    }

    pub(crate) fn bracketed_term(&mut self) -> SourceTerm
        ensures reads { Reads (Token OPEN_PAREN ∷ Rule mterm ∷ Token CLOSE_PAREN ∷ []) bracketed_words self.old self.new result }
        ensures shrinks { length self.new.productions.now ≤ length self.old.productions.now }
    {
        self.skip();
        let term = self.term();
        self.skip();
        term
    }

    pub(crate) fn comparison(&mut self) -> SourceAtom
        ensures reads { Reads (Rule mterm ∷ Rule relation ∷ Rule mterm ∷ []) atom_words self.old self.new result }
        ensures shrinks { length self.new.productions.now ≤ length self.old.productions.now }
    {
        let left = self.term();
        let relation = self.relation();
        let right = self.term();
        SourceAtom::Compare(left, relation, right)
    }

    #[tactic(auto, unfolding(rh_rule_source::specs::Grammar::productions))]
    pub(crate) fn atom(&mut self) -> SourceAtom
        ensures reads { Reads (Rule atom ∷ []) atom_words self.old self.new result }
        ensures shrinks { length self.new.productions.now ≤ length self.old.productions.now }
    {
        match self.choose() {
            production::NUMBER_ATOM => {
                self.skip();
                SourceAtom::IsNumber(self.bracketed_term())
            }
            production::POINTER_ATOM => {
                self.skip();
                SourceAtom::IsPointer(self.bracketed_term())
            }
            production::UNALIASED_ATOM => {
                self.skip();
                SourceAtom::Unaliased(self.bracketed_name())
            }
            _ => self.comparison(),
        }
    }

    pub(crate) fn fact(&mut self, alloc: Global) -> Result<SourceFact, AllocError>
        ensures reads { IfOk result (Reads (Rule fact ∷ []) fact_words self.old self.new) }
        ensures shrinks { length self.new.productions.now ≤ length self.old.productions.now }
    {
        self.choose();
        self.skip();
        let name = self.lower();
        self.skip();
        let params = self.separated(alloc, production::MORE_PARAMS)?;
        self.skip();
        self.skip();
        let atoms = self.separated(alloc, production::MORE_ATOMS)?;
        self.skip();
        Ok(SourceFact {
            name,
            params,
            atoms,
        })
    }
}

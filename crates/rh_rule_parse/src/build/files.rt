//! Whole files.

ghost use Rattle.std.specs.Prelude.{◌≡◌, ◌≤◌, ◌∷◌, [], length, IfOk};
ghost use Rattle.rh_grammar.specs.declared.grammar.Symbol.TheVariants.{Rule};
ghost use Rattle.rh_rule_parse.specs.Cursor.{Reads};
ghost use Rattle.rh_rule_source.specs.Grammar.{item, file};
ghost use Rattle.rh_rule_source.specs.Source.{item_words, file_words};

use crate::cursor::Cursor;
use rh_list::Items;
use rh_rule_source::grammar::production;
use rh_rule_source::{SourceFile, SourceItem};
use std::alloc::{AllocError, Global};

impl Cursor<'_> {
    #[tactic(auto, unfolding(rh_rule_source::specs::Grammar::productions))]
    pub(crate) fn item(&mut self, alloc: Global) -> Result<SourceItem, AllocError>
        ensures reads { IfOk result (Reads (Rule item ∷ []) item_words self.old self.new) }
        ensures shrinks { length self.new.productions.now ≤ length self.old.productions.now }
    {
        match self.choose() {
            production::FACT_ITEM => Ok(SourceItem::Fact(self.fact(alloc)?)),
            _ => Ok(SourceItem::Rule(self.rule(alloc)?)),
        }
    }

    #[tactic(auto, unfolding(rh_rule_source::specs::Grammar::productions))]
    pub(crate) fn file(&mut self, alloc: Global) -> Result<SourceFile, AllocError>
        ensures reads { IfOk result (Reads (Rule file ∷ []) file_words self.old self.new) }
        ensures shrinks { length self.new.productions.now ≤ length self.old.productions.now }
    {
        match self.choose() {
            production::HEADED_FILE => {
                self.skip();
                self.number();
                self.skip();
                let items = self.repeated(alloc, Items::new(alloc), production::MORE_ITEMS)?;
                Ok(SourceFile {
                    headed: true,
                    items,
                })
            }
            production::BARE_FILE => {
                let mut items = Items::new(alloc);
                items.push(self.item(alloc)?)?;
                let items = self.repeated(alloc, items, production::MORE_ITEMS)?;
                Ok(SourceFile {
                    headed: false,
                    items,
                })
            }
            _ => Ok(SourceFile {
                headed: false,
                items: Items::new(alloc),
            }),
        }
    }
}

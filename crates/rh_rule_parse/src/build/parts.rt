//! The parts that stand in lists.

ghost use Rattle.rh_rule_source.specs.Grammar.{COMMA, AND, param, params, atom, atoms, mbase, args, cond, conds, item, items};
ghost use Rattle.rh_rule_source.specs.Source.{param_words, atom_words, base_words, cond_words, item_words};

use crate::build::lists::Part;
use crate::cursor::Cursor;
use rh_rule_source::{SourceAtom, SourceBase, SourceCond, SourceItem, SourceParam};
use std::alloc::{AllocError, Global};

impl Part for SourceParam {
    ghost part = { param };

    ghost others = { params };

    ghost between = { COMMA };

    ghost words = { param_words };

    fn read(cursor: &mut Cursor, _alloc: Global) -> Result<SourceParam, AllocError> {
        Ok(cursor.param())
    }
}

impl Part for SourceAtom {
    ghost part = { atom };

    ghost others = { atoms };

    ghost between = { AND };

    ghost words = { atom_words };

    fn read(cursor: &mut Cursor, _alloc: Global) -> Result<SourceAtom, AllocError> {
        Ok(cursor.atom())
    }
}

impl Part for SourceBase {
    ghost part = { mbase };

    ghost others = { args };

    ghost between = { COMMA };

    ghost words = { base_words };

    fn read(cursor: &mut Cursor, _alloc: Global) -> Result<SourceBase, AllocError> {
        Ok(cursor.base())
    }
}

impl Part for SourceCond {
    ghost part = { cond };

    ghost others = { conds };

    ghost between = { COMMA };

    ghost words = { cond_words };

    fn read(cursor: &mut Cursor, alloc: Global) -> Result<SourceCond, AllocError> {
        cursor.cond(alloc)
    }
}

impl Part for SourceItem {
    ghost part = { item };

    ghost others = { items };

    ghost between = { COMMA };

    ghost words = { item_words };

    fn read(cursor: &mut Cursor, alloc: Global) -> Result<SourceItem, AllocError> {
        cursor.item(alloc)
    }
}

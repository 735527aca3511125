//! Alternatives by their numbers within their nonterminal. Where none of the others is taken, it is the
//! last one.

pub const HEADED_FILE: u8 = 0;

pub const BARE_FILE: u8 = 1;

pub const MORE_ITEMS: u8 = 0;

pub const FACT_ITEM: u8 = 0;

pub const VAR_PARAM: u8 = 0;

pub const MORE_PARAMS: u8 = 0;

pub const MORE_ATOMS: u8 = 0;

pub const NUMBER_ATOM: u8 = 0;

pub const POINTER_ATOM: u8 = 1;

pub const UNALIASED_ATOM: u8 = 2;

pub const EQUAL_RELATION: u8 = 0;

pub const ADDRESS_TERM: u8 = 0;

pub const DEREF_TERM: u8 = 1;

pub const COMPUTED_TERM: u8 = 2;

pub const NAMED_BASE: u8 = 0;

pub const NEGATIVE: u8 = 0;

pub const ADD_OP: u8 = 0;

pub const SUB_OP: u8 = 1;

pub const MUL_OP: u8 = 2;

pub const LESS_OP: u8 = 3;

pub const SOME_METAS: u8 = 0;

pub const ENTRY_PATTERN: u8 = 0;

pub const GOTO_PATTERN: u8 = 1;

pub const SKIP_FORM: u8 = 0;

pub const WRITE_FORM: u8 = 1;

pub const IF_FORM: u8 = 2;

pub const RETURN_FORM: u8 = 3;

pub const ANY_RIGHT: u8 = 0;

pub const NEW_RIGHT: u8 = 1;

pub const ADDRESS_RIGHT: u8 = 2;

pub const LOAD_RIGHT: u8 = 3;

pub const CALL_RIGHT: u8 = 4;

pub const OPERATION: u8 = 0;

pub const WILD_BASE: u8 = 0;

pub const WHEN_CONDS: u8 = 0;

pub const MORE_CONDS: u8 = 0;

pub const FACT_COND: u8 = 0;

pub const MORE_ARGS: u8 = 0;

pub const COMPUTED_SIDE: u8 = 0;

pub const FACT_CONCLUSION: u8 = 0;

pub const OUT_SLOT: u8 = 0;

pub const THEN_SLOT: u8 = 1;

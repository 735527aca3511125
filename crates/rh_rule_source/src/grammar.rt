//! The grammar of rule files. One word of lookahead decides.

use rh_grammar::{Grammar, nonterminal};

pub mod class;
pub mod production;
pub mod rule;

/// Each nonterminal with its weight and its alternatives, and the classes at which each is taken.
pub const RULE_FILES: Grammar<'static> = Grammar {
    nonterminals: &[
        // file
        nonterminal!(
            3;
            {RHODIUM => [RHODIUM] [ONE] [SEMICOLON] ITEMS}
            {FACT RULE => ITEM ITEMS}
            { => }
        ),
        // items
        nonterminal!(
            3;
            {FACT RULE => ITEM ITEMS}
            { => }
        ),
        // item
        nonterminal!(
            2;
            {FACT => FACT}
            {RULE => RULE}
        ),
        // fact
        nonterminal!(
            1;
            {FACT => [FACT] [LOWER] [OPEN_PAREN] PARAM PARAMS [CLOSE_PAREN] [MEANS] ATOM ATOMS [SEMICOLON]}
        ),
        // param
        nonterminal!(
            1;
            {VAR => [VAR] [UPPER]}
            {CONST => [CONST] [UPPER]}
        ),
        // params
        nonterminal!(
            1;
            {COMMA => [COMMA] PARAM PARAMS}
            { => }
        ),
        // atoms
        nonterminal!(
            1;
            {AND => [AND] ATOM ATOMS}
            { => }
        ),
        // atom
        nonterminal!(
            4;
            {NUMBER_OF => [NUMBER_OF] [OPEN_PAREN] MTERM [CLOSE_PAREN]}
            {POINTER => [POINTER] [OPEN_PAREN] MTERM [CLOSE_PAREN]}
            {UNALIASED => [UNALIASED] [OPEN_PAREN] [UPPER] [CLOSE_PAREN]}
            {OPEN_PAREN MINUS STAR AMPERSAND UPPER ONE NUMBER => MTERM RELATION MTERM}
        ),
        // relation
        nonterminal!(
            1;
            {EQUAL => [EQUAL]}
            {DIFFER => [DIFFER]}
        ),
        // mterm
        nonterminal!(
            3;
            {AMPERSAND => [AMPERSAND] [UPPER]}
            {STAR => [STAR] [UPPER]}
            {OPEN_PAREN => [OPEN_PAREN] MBASE OP MBASE [CLOSE_PAREN]}
            {MINUS UPPER ONE NUMBER => MBASE}
        ),
        // mbase
        nonterminal!(
            2;
            {UPPER => [UPPER]}
            {MINUS ONE NUMBER => NUM}
        ),
        // num
        nonterminal!(
            1;
            {MINUS => [MINUS] SIZE}
            {ONE => [ONE]}
            {NUMBER => [NUMBER]}
        ),
        // size
        nonterminal!(
            1;
            {ONE => [ONE]}
            {NUMBER => [NUMBER]}
            {LARGEST => [LARGEST]}
        ),
        // op
        nonterminal!(
            1;
            {PLUS => [PLUS]}
            {MINUS => [MINUS]}
            {STAR => [STAR]}
            {LESS => [LESS]}
            {EQUAL => [EQUAL]}
        ),
        // rule
        nonterminal!(
            1;
            {RULE => [RULE] [LOWER] [OPEN_PAREN] METAS [CLOSE_PAREN] [OPEN_BRACE] PATTERN WHEN [ARROW] CONCLUSION [CLOSE_BRACE]}
        ),
        // metas
        nonterminal!(
            2;
            {VAR CONST => PARAM PARAMS}
            { => }
        ),
        // pattern
        nonterminal!(
            2;
            {ENTRY => [ENTRY] [OPEN_PAREN] [UPPER] [CLOSE_PAREN]}
            {GOTO => [GOTO]}
            {STAR SKIP IF RETURN UPPER => FORM}
        ),
        // form
        nonterminal!(
            1;
            {SKIP => [SKIP]}
            {STAR => [STAR] [UPPER] [BECOMES] WBASE}
            {IF => [IF] WBASE}
            {RETURN => [RETURN] WBASE}
            {UPPER => [UPPER] [BECOMES] RIGHT}
        ),
        // right
        nonterminal!(
            3;
            {UNDERSCORE => [UNDERSCORE]}
            {NEW => [NEW]}
            {AMPERSAND => [AMPERSAND] [UPPER]}
            {STAR => [STAR] [UPPER]}
            {CALL => [CALL] [OPEN_PAREN] WBASE [CLOSE_PAREN]}
            {MINUS UPPER ONE NUMBER => MBASE OPERATION}
        ),
        // operation
        nonterminal!(
            2;
            {EQUAL PLUS MINUS STAR LESS => OP MBASE}
            { => }
        ),
        // wbase
        nonterminal!(
            3;
            {UNDERSCORE => [UNDERSCORE]}
            {MINUS UPPER ONE NUMBER => MBASE}
        ),
        // when
        nonterminal!(
            1;
            {WHEN => [WHEN] COND CONDS}
            { => }
        ),
        // conds
        nonterminal!(
            1;
            {COMMA => [COMMA] COND CONDS}
            { => }
        ),
        // cond
        nonterminal!(
            4;
            {LOWER => FACT_USE [AT] [IN]}
            {OPEN_PAREN MINUS UPPER ONE NUMBER => STERM RELATION STERM}
        ),
        // fact_use
        nonterminal!(
            1;
            {LOWER => [LOWER] [OPEN_PAREN] MBASE ARGS [CLOSE_PAREN]}
        ),
        // args
        nonterminal!(
            1;
            {COMMA => [COMMA] MBASE ARGS}
            { => }
        ),
        // sterm
        nonterminal!(
            3;
            {OPEN_PAREN => [OPEN_PAREN] MBASE OP MBASE [CLOSE_PAREN]}
            {MINUS UPPER ONE NUMBER => MBASE}
        ),
        // conclusion
        nonterminal!(
            2;
            {LOWER => FACT_USE [AT] SLOT}
            {TRANSFORM => [TRANSFORM] FORM}
        ),
        // slot
        nonterminal!(
            1;
            {OUT => [OUT]}
            {THEN => [THEN]}
            {ELSE => [ELSE]}
        ),
    ],
};

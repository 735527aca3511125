//! The grammar of programs. One word of lookahead decides.

use rh_grammar::{Grammar, nonterminal};

pub(crate) mod alternative;
pub(crate) mod class;
pub(crate) mod rule;

/// Each nonterminal with its weight and its alternatives, and the classes at which each is taken.
pub(crate) const PROGRAMS: Grammar<'static> = Grammar {
    nonterminals: &[
        // program
        nonterminal!(
            2;
            {NAME => PROCEDURE PROGRAM}
            { => }
        ),
        // procedure
        nonterminal!(
            1;
            {NAME => [NAME] [OPEN_PAREN] [NAME] [CLOSE_PAREN] LOCALS [OPEN_BRACE] BODY [CLOSE_BRACE]}
        ),
        // locals
        nonterminal!(
            1;
            {VAR => [VAR] [NAME] MORE_LOCALS}
            { => }
        ),
        // more_locals
        nonterminal!(
            1;
            {COMMA => [COMMA] [NAME] MORE_LOCALS}
            { => }
        ),
        // body
        nonterminal!(
            2;
            {STAR SKIP GOTO IF RETURN NAME => STATEMENT [SEMICOLON] BODY}
            { => }
        ),
        // statement
        nonterminal!(
            1;
            {SKIP => [SKIP]}
            {GOTO => [GOTO] [INDEX]}
            {IF => [IF] BASE [GOTO] [INDEX] [ELSE] [INDEX]}
            {RETURN => [RETURN] BASE}
            {STAR => [STAR] [NAME] [BECOMES] BASE}
            {NAME => [NAME] [BECOMES] VALUE}
        ),
        // value
        nonterminal!(
            2;
            {NEW => [NEW]}
            {AMPERSAND => [AMPERSAND] [NAME]}
            {STAR => [STAR] [NAME]}
            {NAME => [NAME] BEHIND_NAME}
            {MINUS INDEX SIZE => NUMBER BEHIND_BASE}
        ),
        // behind_name
        nonterminal!(
            2;
            {OPEN_PAREN => [OPEN_PAREN] BASE [CLOSE_PAREN]}
            {EQUAL PLUS MINUS STAR LESS => OPERATOR BASE}
            { => }
        ),
        // behind_base
        nonterminal!(
            2;
            {EQUAL PLUS MINUS STAR LESS => OPERATOR BASE}
            { => }
        ),
        // base
        nonterminal!(
            2;
            {NAME => [NAME]}
            {MINUS INDEX SIZE => NUMBER}
        ),
        // number
        nonterminal!(
            1;
            {INDEX => [INDEX]}
            {SIZE => [SIZE]}
            {MINUS => [MINUS] MAGNITUDE}
        ),
        // magnitude
        nonterminal!(
            1;
            {INDEX => [INDEX]}
            {SIZE => [SIZE]}
            {LEAST => [LEAST]}
        ),
        // operator
        nonterminal!(
            1;
            {PLUS => [PLUS]}
            {MINUS => [MINUS]}
            {STAR => [STAR]}
            {LESS => [LESS]}
            {EQUAL => [EQUAL]}
        ),
    ],
};

//! Macros that write the alternatives of a grammar. Where they are used, a module `class` has the
//! classes of tokens as constants, and a module `rule` the nonterminals.

/// A symbol: a class of tokens in brackets, or a nonterminal.
#[macro_export]
macro_rules! symbol {
    ([$class:ident]) => {
        $crate::Symbol::Token(class::$class)
    };
    ($rule:ident) => {
        $crate::Symbol::Rule(rule::$rule)
    };
}

/// An alternative: the classes at which it is taken, and its symbols.
#[macro_export]
macro_rules! on {
    ($($class:ident)* => $($symbol:tt)*) => {
        $crate::Alternative { at: &[$(class::$class),*], to: &[$($crate::symbol!($symbol)),*] }
    };
}

/// A nonterminal: its weight, and its alternatives.
#[macro_export]
macro_rules! nonterminal {
    ($weight:literal; $({$($alternative:tt)*})*) => {
        $crate::Nonterminal { weight: $weight, alternatives: &[$($crate::on!($($alternative)*)),*] }
    };
}

//! The one parser over all grammars.

ghost use Rattle.std.specs.Prelude.{◌≡◌, ◌≤◌, ◌<◌, [], ◌∷◌, ◌++◌, length, reverse, IfOk, IfErr, OnOk};
ghost use Rattle.rh_grammar.specs.declared.grammar.Symbol.TheVariants.{Rule};
ghost use Rattle.rh_grammar.specs.declared.parser.ParseFault.TheVariants.{NoMemory};
ghost use Rattle.rh_grammar.specs.Derivation.{Derives, FaultsAs};
ghost use Rattle.rh_grammar.specs.Tables.{rules_of};
ghost use Rattle.rh_grammar.specs.Stack.{Pushes};
ghost use Rattle.rh_grammar.specs.Parsing.{IsTop, IsNextRule, Settles, Takes, Finishes, IsParsable};
ghost use Rattle.rh_grammar.specs.Deterministic.{Evidence, IsDeterministic};

use crate::grammar::{Grammar, Symbol};
use std::alloc::{AllocError, AllocFailed, Global};

/// Why a nonterminal doesn't derive tokens.
#[derive(Clone, Copy, Debug, PartialEq, Eq)]
pub enum ParseFault {
    /// The place of the first token that cannot continue a derivable list, or the number of tokens
    /// where they end too early.
    Syntax(usize),
    NoMemory,
}

impl From<AllocError> for ParseFault {
    ghost from_gives = { λ _ fault. fault ≡ NoMemory };

    fn from(_failed: AllocError) -> ParseFault {
        ParseFault::NoMemory
    }
}

impl<T: Drop> From<AllocFailed<T>> for ParseFault {
    ghost from_gives = { λ _ fault. fault ≡ NoMemory };

    fn from(_failed: AllocFailed<T>) -> ParseFault {
        ParseFault::NoMemory
    }
}

/// Puts symbols on a stack, the first of them on top.
fn push_all(stack: &mut Vec<Symbol>, symbols: &[Symbol]) -> Result<(), AllocError>
    ensures { OnOk result (reverse stack.new.items ≡ symbols.now ++ reverse stack.old.items) }
{
    let mut left = symbols.len();
    while left > 0 {
        left -= 1;
        stack.push(symbols[left])?;
    }
    Ok(())
}

/// Puts the symbols of an alternative on a stack.
fn push_production(
    stack: &mut Vec<Symbol>,
    grammar: &Grammar,
    rule: u8,
    number: u8,
) -> Result<(), AllocError>
    ensures { OnOk result (Pushes grammar.now rule number stack.old.items stack.new.items) }
{
    if let Some(symbols) = grammar.symbols(rule, number) {
        push_all(stack, symbols)?;
    }
    Ok(())
}

/// The symbol on top of a stack.
fn top(stack: &[Symbol]) -> Option<Symbol>
    ensures { IsTop stack.now result }
{
    stack.last().copied()
}

/// The nonterminal on top of a stack.
fn next_rule(stack: &[Symbol]) -> Option<u8>
    ensures { IsNextRule stack.now result }
{
    match top(stack) {
        Some(Symbol::Rule(rule)) => Some(rule),
        _ => None,
    }
}

/// Replaces nonterminals on top until a token is there or none can be replaced.
fn settle(
    grammar: &Grammar,
    class: u8,
    stack: &mut Vec<Symbol>,
    taken: &mut Vec<u8>,
) -> Result<(), AllocError>
    requires { (e : Evidence) × IsDeterministic grammar.now e }
    ensures { OnOk result (Settles grammar.now class stack.old.items taken.old.items stack.new.items taken.new.items) }
{
    while let Some(rule) = next_rule(stack.as_slice()) {
        let Some(number) = grammar.chosen(rule, class) else {
            return Ok(());
        };
        stack.pop();
        push_production(stack, grammar, rule, number)?;
        taken.push(number)?;
    }
    Ok(())
}

/// Takes a token, if what is left to derive can begin with it.
fn take_token(
    grammar: &Grammar,
    class: u8,
    stack: &mut Vec<Symbol>,
    taken: &mut Vec<u8>,
) -> Result<bool, AllocError>
    requires { (e : Evidence) × IsDeterministic grammar.now e }
    ensures { IfOk result (λ took. Takes grammar.now class stack.old.items taken.old.items took stack.new.items taken.new.items) }
{
    settle(grammar, class, stack, taken)?;
    if top(stack.as_slice()) == Some(Symbol::Token(class)) {
        stack.pop();
        return Ok(true);
    }
    Ok(false)
}

/// Drops what is left, if it may derive no token.
fn finish(
    grammar: &Grammar,
    stack: &mut Vec<Symbol>,
    taken: &mut Vec<u8>,
) -> Result<bool, AllocError>
    ensures { IfOk result (λ ended. Finishes grammar.now stack.old.items taken.old.items ended taken.new.items) }
{
    while let Some(symbol) = stack.pop() {
        let Symbol::Rule(rule) = symbol else {
            return Ok(false);
        };
        let Some(number) = grammar.empty(rule) else {
            return Ok(false);
        };
        taken.push(number)?;
    }
    Ok(true)
}

/// The alternatives by which a nonterminal derives tokens, in the order in which they replace the
/// leftmost nonterminal, each by its number within its own; or the first token that cannot continue a derivable list.
///
/// The parser is the one for LL(1) grammars of "Compilers: Principles, Techniques, and Tools" by
/// Aho, Lam, Sethi and Ullman, 2006, with the empty alternatives as the default.
pub fn parse(
    alloc: Global,
    grammar: &Grammar,
    rule: u8,
    tokens: &[u8],
) -> Result<Vec<u8>, ParseFault>
    requires { IsParsable grammar.now rule }
    ensures derives { IfOk result (λ taken. Derives (rules_of grammar.now) (Rule rule ∷ []) taken.items tokens.now) }
    ensures fault { IfErr result (FaultsAs (rules_of grammar.now) rule tokens.now) }
{
    let mut stack = Vec::new(alloc);
    let mut taken = Vec::new(alloc);
    stack.push(Symbol::Rule(rule))?;
    for (place, class) in tokens.iter().enumerate() {
        if !take_token(grammar, *class, &mut stack, &mut taken)? {
            return Err(ParseFault::Syntax(place));
        }
    }
    if finish(grammar, &mut stack, &mut taken)? {
        Ok(taken)
    } else {
        Err(ParseFault::Syntax(tokens.len()))
    }
}

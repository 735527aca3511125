//! Reads statements by a cursor.

ghost use Rattle.std.specs.Prelude.{◌≡◌, ◌≤◌, ◌∷◌, ◌++◌, [], length};
ghost use Rattle.rh_grammar.specs.declared.grammar.Symbol.TheVariants.{Token, Rule};
ghost use Rattle.rh_il_source.specs.Grammar.{name, index, becomes, star, if_word, goto_word, else_word, statement, value, behind_name, behind_base, base, number, magnitude, operator};
ghost use Rattle.rh_il_source.specs.Source.{op_sign, operand_words, line_words};
ghost use Rattle.rh_il_source.specs.Reading.{Reads, ReadsAssigned};
ghost use Rattle.rh_il_source.specs.declared.word.Word.TheVariants.{Sign as SignWord, Name as NameWord, Number as NumberWord};

use crate::grammar::alternative;
use crate::leaf::{read_index, read_name, read_number, skip};
use crate::source::{Line, Operand};
use crate::word::Word;
use rh_grammar::Cursor;
use rh_il::{Name, Op};

/// A number after `-`.
fn read_magnitude(cursor: &mut Cursor<Word>) -> u64
    ensures reads { Reads (Rule magnitude ∷ []) (λ n. NumberWord n ∷ []) cursor.old cursor.new result }
    ensures shrinks { length cursor.new.steps.now ≤ length cursor.old.steps.now }
{
    cursor.choose();
    read_number(cursor)
}

#[tactic(auto, unfolding(crate::specs::Grammar::productions))]
fn read_signed(cursor: &mut Cursor<Word>) -> Operand
    ensures reads { Reads (Rule number ∷ []) operand_words cursor.old cursor.new result }
    ensures shrinks { length cursor.new.steps.now ≤ length cursor.old.steps.now }
{
    match cursor.choose() {
        alternative::number::NEGATIVE => {
            skip(cursor);
            let size = read_magnitude(cursor);
            Operand::Num {
                negative: true,
                size,
            }
        }
        _ => {
            let size = read_number(cursor);
            Operand::Num {
                negative: false,
                size,
            }
        }
    }
}

#[tactic(auto, unfolding(crate::specs::Grammar::productions))]
fn read_operand(cursor: &mut Cursor<Word>) -> Operand
    ensures reads { Reads (Rule base ∷ []) operand_words cursor.old cursor.new result }
    ensures shrinks { length cursor.new.steps.now ≤ length cursor.old.steps.now }
{
    match cursor.choose() {
        alternative::base::NAME => Operand::Var(read_name(cursor)),
        _ => read_signed(cursor),
    }
}

#[tactic(auto, unfolding(crate::specs::Grammar::productions))]
fn read_op(cursor: &mut Cursor<Word>) -> Op
    ensures reads { Reads (Rule operator ∷ []) (λ op. SignWord (op_sign op) ∷ []) cursor.old cursor.new result }
    ensures shrinks { length cursor.new.steps.now ≤ length cursor.old.steps.now }
{
    let number = cursor.choose();
    skip(cursor);
    match number {
        alternative::operator::PLUS => Op::Add,
        alternative::operator::MINUS => Op::Sub,
        alternative::operator::STAR => Op::Mul,
        alternative::operator::LESS => Op::Less,
        _ => Op::Equal,
    }
}

/// What is assigned, after its first operand: the operator and the second one.
fn read_computed(cursor: &mut Cursor<Word>, to: Name, left: Operand) -> Line
    ensures reads { ReadsAssigned to (operand_words left) (Rule operator ∷ Rule base ∷ []) cursor.old cursor.new result }
    ensures shrinks { length cursor.new.steps.now ≤ length cursor.old.steps.now }
{
    let op = read_op(cursor);
    let right = read_operand(cursor);
    Line::Compute {
        to,
        op,
        left,
        right,
    }
}

/// What is assigned, after a number with which it begins.
#[tactic(auto, unfolding(crate::specs::Grammar::productions))]
fn read_behind_base(cursor: &mut Cursor<Word>, to: Name, left: Operand) -> Line
    ensures reads { ReadsAssigned to (operand_words left) (Rule behind_base ∷ []) cursor.old cursor.new result }
    ensures shrinks { length cursor.new.steps.now ≤ length cursor.old.steps.now }
{
    match cursor.choose() {
        alternative::behind_base::COMPUTED => read_computed(cursor, to, left),
        _ => Line::Copy { to, from: left },
    }
}

/// What is assigned, after a name with which it begins.
#[tactic(auto, unfolding(crate::specs::Grammar::productions))]
fn read_behind_name(cursor: &mut Cursor<Word>, to: Name, first: Name) -> Line
    ensures reads { ReadsAssigned to (NameWord first ∷ []) (Rule behind_name ∷ []) cursor.old cursor.new result }
    ensures shrinks { length cursor.new.steps.now ≤ length cursor.old.steps.now }
{
    match cursor.choose() {
        alternative::behind_name::CALL => {
            skip(cursor);
            let arg = read_operand(cursor);
            skip(cursor);
            Line::Call {
                to,
                proc: first,
                arg,
            }
        }
        alternative::behind_name::COMPUTED => read_computed(cursor, to, Operand::Var(first)),
        _ => Line::Copy {
            to,
            from: Operand::Var(first),
        },
    }
}

#[tactic(auto, unfolding(crate::specs::Grammar::productions))]
fn read_value(cursor: &mut Cursor<Word>, to: Name) -> Line
    ensures reads { ReadsAssigned to [] (Rule value ∷ []) cursor.old cursor.new result }
    ensures shrinks { length cursor.new.steps.now ≤ length cursor.old.steps.now }
{
    match cursor.choose() {
        alternative::value::NEW => {
            skip(cursor);
            Line::New { to }
        }
        alternative::value::ADDRESS => {
            skip(cursor);
            let of = read_name(cursor);
            Line::Address { to, of }
        }
        alternative::value::LOAD => {
            skip(cursor);
            let from = read_name(cursor);
            Line::Load { to, from }
        }
        alternative::value::NAMED => {
            let first = read_name(cursor);
            read_behind_name(cursor, to, first)
        }
        _ => {
            let left = read_signed(cursor);
            read_behind_base(cursor, to, left)
        }
    }
}

fn read_branch(cursor: &mut Cursor<Word>) -> Line
    ensures reads { Reads (Token if_word ∷ Rule base ∷ Token goto_word ∷ Token index ∷ Token else_word ∷ Token index ∷ []) line_words cursor.old cursor.new result }
    ensures shrinks { length cursor.new.steps.now ≤ length cursor.old.steps.now }
{
    skip(cursor);
    let cond = read_operand(cursor);
    skip(cursor);
    let yes = read_index(cursor);
    skip(cursor);
    let no = read_index(cursor);
    Line::If { cond, yes, no }
}

fn read_write(cursor: &mut Cursor<Word>) -> Line
    ensures reads { Reads (Token star ∷ Token name ∷ Token becomes ∷ Rule base ∷ []) line_words cursor.old cursor.new result }
    ensures shrinks { length cursor.new.steps.now ≤ length cursor.old.steps.now }
{
    skip(cursor);
    let to = read_name(cursor);
    skip(cursor);
    let from = read_operand(cursor);
    Line::Write { to, from }
}

/// A statement without its `;`.
#[tactic(auto, unfolding(crate::specs::Grammar::productions))]
pub(crate) fn read_statement(cursor: &mut Cursor<Word>) -> Line
    ensures reads { Reads (Rule statement ∷ []) line_words cursor.old cursor.new result }
    ensures shrinks { length cursor.new.steps.now ≤ length cursor.old.steps.now }
{
    match cursor.choose() {
        alternative::statement::SKIP => {
            skip(cursor);
            Line::Skip
        }
        alternative::statement::GOTO => {
            skip(cursor);
            let to = read_index(cursor);
            Line::Goto { to }
        }
        alternative::statement::IF => read_branch(cursor),
        alternative::statement::RETURN => {
            skip(cursor);
            let value = read_operand(cursor);
            Line::Return { value }
        }
        alternative::statement::WRITE => read_write(cursor),
        _ => {
            let to = read_name(cursor);
            skip(cursor);
            read_value(cursor, to)
        }
    }
}

//! One line.
ghost use Rattle.std.specs.Prelude.{◌≡◌, ◌<◌, ◌==◌, IfSome, length, option_map};
ghost use Rattle.std.specs.List.{position};
ghost use Rattle.rh_log_text.specs.Reading.{after, line_of, node_of, node_with, rule_of};

use crate::number::number_of;
use rh_il::Name;
use rh_log::LogNode;

/// A line that is not skipped.
#[derive(Drop)]
pub(crate) enum Line {
    /// `rule NAME`
    Rule(Name),
    /// `log NUMBER`
    Log(u32),
    /// `CLAUSE CHILDREN`
    Node(LogNode),
}

/// What stands behind a front.
fn after<'a>(front: &[u8], bytes: &'a [u8]) -> Option<&'a [u8]>
    ensures { option_map (λ rest. rest.now) result ≡ after front.now bytes.now }
{
    bytes.strip_prefix(front)
}

fn rule_of(name: &[u8]) -> Option<Line>
    ensures { result ≡ rule_of name.now }
{
    match Name::of(name) {
        Some(name) => Some(Line::Rule(name)),
        None => None,
    }
}

fn node_of(bytes: &[u8]) -> Option<Line>
    ensures { result ≡ node_of bytes.now }
{
    match space_at(bytes) {
        Some(end) => node_with(number_of(&bytes[..end]), number_of(&bytes[end + 1..])),
        None => None,
    }
}

fn node_with(clause: Option<u32>, children: Option<u32>) -> Option<Line>
    ensures { result ≡ node_with clause children }
{
    match (clause, children) {
        (Some(clause), Some(children)) => Some(Line::Node(LogNode { clause, children })),
        _ => None,
    }
}

/// Where the first word ends.
fn space_at(bytes: &[u8]) -> Option<usize>
    ensures end { result ≡ position (λ byte. byte == 32) bytes.now }
    ensures within { IfSome result (λ end. end < length bytes.now) }
{
    bytes.iter().position(|byte| *byte == b' ')
}

/// The line that the bytes are.
pub(crate) fn line_of(bytes: &[u8]) -> Option<Line>
    ensures { result ≡ line_of bytes.now }
{
    if let Some(name) = after(b"rule ", bytes) {
        return rule_of(name);
    }
    match after(b"log ", bytes) {
        Some(number) => number_of(number).map(Line::Log),
        None => node_of(bytes),
    }
}

//! Which clause comes next.
ghost use Rattle.std.specs.Prelude.{◌≡◌, ◌<◌, ◌+◌, ◌^◌, ◌∷◌, [], false, length, map, nat_lt, IfSome, IfNone};
ghost use Rattle.std.specs.List.{flat_map};
ghost use Rattle.std.specs.Option.{option_map_or};
ghost use Rattle.rh_term.specs.Clauses.{all_clauses, part_clauses};
ghost use Rattle.rh_term.specs.Computed.{clause_with, computed_clauses, operation_clauses};
ghost use Rattle.rh_refuter.specs.Choice.{Adds, HasNoFalse, IsBest, IsChosen, IsFirstFalse, narrower};

use rh_log::{is_computed, is_true, width};
use rh_term::{Clause, Clauses, Computed, Operation, Part, Triple, Triples};

/// A clause that is false, and how many equations it has.
#[derive(Clone, Copy)]
struct Choice {
    number: usize,
    width: usize,
}

/// How many clauses were seen, and of those that are false the first of those with the fewest equations.
#[derive(Clone, Copy)]
struct Seen {
    count: usize,
    best: Option<Choice>,
}

/// The one with fewer equations, and the first of two with as many.
fn narrower(best: Option<Choice>, choice: Choice) -> Option<Choice>
    ensures { result ≡ narrower best choice }
{
    match best {
        None => Some(choice),
        Some(best) => {
            if choice.width < best.width {
                Some(choice)
            } else {
                Some(best)
            }
        }
    }
}

/// Whether no clause with one equation can be a better choice.
fn is_narrow(best: Option<Choice>) -> bool
    ensures { result ≡ option_map_or (λ choice. nat_lt choice.width 2) best false }
{
    match best {
        None => false,
        Some(choice) => choice.width < 2,
    }
}

impl Seen {
    fn with_clause(self, labels: &[u32], clause: &Clause) -> Seen
        requires { self.count + 1 < 2 ^ 32 }
        ensures { Adds labels.now self (clause.now ∷ []) result }
    {
        let best = if is_true(labels, clause) {
            self.best
        } else {
            let choice = Choice {
                number: self.count,
                width: width(clause),
            };
            narrower(self.best, choice)
        };
        Seen {
            count: self.count + 1,
            best,
        }
    }

    fn with_made(self, labels: &[u32], clauses: &[Clause]) -> Seen
        requires { self.count + length clauses.now < 2 ^ 32 }
        ensures { Adds labels.now self clauses.now result }
    {
        let mut seen = self;
        for clause in clauses {
            seen = seen.with_clause(labels, clause);
        }
        seen
    }

    fn with_triples(self, labels: &[u32], operation: Operation, triples: &[Triple]) -> Seen
        requires { self.count + length triples.now < 2 ^ 32 }
        ensures { Adds labels.now self (map (clause_with operation) triples.now) result }
    {
        Seen {
            count: self.count + triples.len(),
            best: best_with(self, labels, operation, triples),
        }
    }

    fn with_operation(self, labels: &[u32], operation: Operation, triples: &Triples) -> Seen
        requires { self.count + length (operation_clauses triples.now operation) < 2 ^ 32 }
        ensures { Adds labels.now self (operation_clauses triples.now operation) result }
    {
        self.with_triples(labels, operation, triples.of(operation.op))
    }

    fn with_computed(self, labels: &[u32], computed: &Computed) -> Seen
        requires { self.count + length (computed_clauses computed.now) < 2 ^ 32 }
        ensures { Adds labels.now self (computed_clauses computed.now) result }
    {
        let mut seen = self;
        for operation in computed.operations.as_slice() {
            seen = seen.with_operation(labels, *operation, &computed.triples);
        }
        seen
    }

    fn with_part(self, labels: &[u32], part: &Part) -> Seen
        requires { self.count + length (part_clauses part.now) < 2 ^ 32 }
        ensures { Adds labels.now self (part_clauses part.now) result }
    {
        self.with_made(labels, part.made.as_slice())
            .with_computed(labels, &part.computed)
    }

    fn with_parts(self, labels: &[u32], parts: &[Part]) -> Seen
        requires { self.count + length (flat_map part_clauses parts.now) < 2 ^ 32 }
        ensures { Adds labels.now self (flat_map part_clauses parts.now) result }
    {
        let mut seen = self;
        for part in parts {
            seen = seen.with_part(labels, part);
        }
        seen
    }
}

/// The best choice with the clauses of an operation. Each of them has one equation.
fn best_with(seen: Seen, labels: &[u32], operation: Operation, triples: &[Triple]) -> Option<Choice>
    requires { seen.count + length triples.now < 2 ^ 32 }
    ensures { Adds labels.now seen (map (clause_with operation) triples.now) (record { count = seen.count + length triples.now; best = result }) }
{
    if is_narrow(seen.best) {
        return seen.best;
    }
    match first_false(labels, operation, triples) {
        Some(at) => {
            let choice = Choice {
                number: seen.count + at,
                width: 1,
            };
            narrower(seen.best, choice)
        }
        None => seen.best,
    }
}

/// The first of the clauses of an operation that is false. They are not made for this.
fn first_false(labels: &[u32], operation: Operation, triples: &[Triple]) -> Option<usize>
    ensures found { IfSome result (IsFirstFalse (map (clause_with operation) triples.now) labels.now) }
    ensures none { IfNone result (HasNoFalse (map (clause_with operation) triples.now) labels.now) }
{
    for (at, triple) in triples.iter().enumerate() {
        if !is_computed(labels, operation, *triple) {
            return Some(at);
        }
    }
    None
}

fn best_of(parts: &[Part], last: &[Clause], labels: &[u32]) -> Option<Choice>
    requires { length (all_clauses parts.now last.now) < 2 ^ 32 }
    ensures { IsBest (all_clauses parts.now last.now) labels.now result }
{
    let none = Seen {
        count: 0,
        best: None,
    };
    none.with_parts(labels, parts).with_made(labels, last).best
}

/// Of the clauses that are false in the partition with these labels, the first of those with the
/// fewest equations.
pub fn chosen(clauses: &Clauses, labels: &[u32]) -> Option<u32>
    requires few { length clauses.now < 2 ^ 32 }
    ensures chosen { IfSome result (IsChosen clauses.now labels.now) }
    ensures within { IfSome result (λ number. number < length clauses.now) }
    ensures none { IfNone result (HasNoFalse clauses.now labels.now) }
{
    let (parts, last) = clauses.parts();
    match best_of(parts, last, labels) {
        Some(choice) => Some(choice.number as u32),
        None => None,
    }
}

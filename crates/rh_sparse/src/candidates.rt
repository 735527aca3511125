//! Which bits of a program have a row. They are found from the instances of the rules, edge by edge, and not by asking
//! each bit. Begin with `candidates`.
ghost use Rattle.std.specs.Prelude.{ℕ, ◌≡◌, ◌≤◌, ◌==◌, None, Some, false, true, length, slice_get, vec_len, IfNone, IfOk, IfSome};
ghost use Rattle.std.specs.Option.{option_map_or};
ghost use Rattle.std.proofs.Props.{props};
ghost use Rattle.rh_list.specs.Each.{Each};
ghost use Rattle.rh_il.specs.declared.program.Proc.{Proc as AProc};
ghost use Rattle.rh_il.specs.Flow.{edges_of};
ghost use Rattle.rh_rule.specs.declared.rule.Rule.{Rule as ARule};
ghost use Rattle.rh_ground.specs.Instance.{is_instance, is_rule_in};
ghost use Rattle.rh_layout.specs.Bits.{full_words};
ghost use Rattle.rh_system.specs.Bits.{bits_in};
ghost use Rattle.rh_rows.specs.BitRows.{rows_of};
ghost use Rattle.rh_sparse.specs.Candidates.{IsEdgeSite, Marks, concluded_in, concluded_on, edge_count, fact_on, has_row, is_bit_of, is_concluded, rule_concludes, rules_conclude, some_concludes};

use rh_domain::Domain;
use rh_ground::{
    Visitor, Wanted, args_under, fixed_by_rule, is_rule_in, may_match, rule_matches, visit_bindings,
};
use rh_il::{Edge, Proc, Program};
use rh_layout::Layout;
use rh_rows::Ground;
use rh_rule::{Arg, Conclusion, FactUse, Rule, Ruling, Schema};
use rh_system::with_bit;
use std::alloc::{AllocError, Global};

/// An edge of a procedure of a program, with what is known of the procedure.
#[derive(Clone, Copy)]
struct EdgeSite<'a> {
    /// The schemas and the program that the layout is for.
    schemas: &'a [Schema],
    program: &'a Program,
    layout: &'a Layout,
    /// The procedure, and its variables and constants.
    proc: &'a Proc,
    domain: &'a Domain,
    /// The number of the procedure.
    place: u32,
    /// The number of the edge among those of the procedure.
    number: u32,
    edge: Edge,
    ghost is: { IsEdgeSite schemas.now program.now layout.now proc.now domain.now place number edge } by { Prim.hlevel props },
}

/// The instances of a rule at the node that an edge leaves, and what the rule concludes on the edge. Whether the numbers
/// in the rule are constants of the procedure is asked before any binding is tried.
#[derive(Clone, Copy)]
struct Concluding<'a> {
    site: EdgeSite<'a>,
    rule: &'a Rule,
    concluded: &'a FactUse,
    ghost inside: { is_rule_in site.proc.now rule.now ≡ true },
}

impl Concluding<'_> {
    /// The bit of the fact that is concluded under a binding, where it is one of the program.
    fn bit_under(&self, binding: &[Arg]) -> Option<u64>
        ensures { (bit : ℕ) → option_map_or (λ found. found == bit) result false ≡ is_bit_of self.now.site.schemas.now self.now.site.program.now (fact_on self.now.site.place self.now.site.edge self.now.concluded.now binding.now) bit }
    {
        let site = &self.site;
        let fact = self.concluded;
        let args = args_under(binding, fact.args.as_slice())?;
        site.layout.bit_of(
            site.schemas,
            site.place,
            site.number,
            fact.schema,
            args.as_slice(),
        )
    }
}

impl Wanted for Concluding<'_> {
    ghost accepts = { λ c binding. is_instance c.site.proc.now c.rule.now binding c.site.edge.node };

    fn accepts(&self, binding: &[Arg]) -> bool {
        rule_matches(self.site.proc, self.rule, binding, self.site.edge.node)
    }

    fn fixed(&self, meta: u32) -> Option<Arg> {
        fixed_by_rule(self.site.proc, self.rule, self.site.edge.node, meta)
    }
}

impl Visitor for Concluding<'_> {
    type Kept = Vec<u64>;

    ghost visits = { λ c binding old new. Marks (is_bit_of c.site.schemas.now c.site.program.now (fact_on c.site.place c.site.edge c.concluded.now binding)) old.items new.items };

    fn visit(&self, binding: &[Arg], masks: &mut Vec<u64>) {
        if let Some(bit) = self.bit_under(binding) {
            mark(masks.as_mut_slice(), bit);
        }
    }
}

/// Sets a bit of words. Past the last word there is none.
fn mark(words: &mut [u64], bit: u64)
    ensures { Marks (λ other. bit == other) words.old words.new }
{
    let place = (bit / 64) as usize;
    if place < words.len() {
        words[place] = with_bit(words[place], (bit % 64) as u32);
    }
}

/// Marks what a rule with a pattern of the form of the statement concludes on the edge.
fn mark_matching(site: &EdgeSite, rule: &Rule, concluded: &FactUse, masks: &mut Vec<u64>)
    requires { length rule.now.params ≤ 6 }
    ensures { Marks (some_concludes site.now.schemas.now site.now.program.now site.now.place site.now.proc.now site.now.edge rule.now concluded.now) masks.old.items masks.new.items }
{
    if is_rule_in(site.proc, site.domain, rule) {
        let concluding = Concluding {
            site: *site,
            rule,
            concluded,
        };
        visit_bindings(site.domain, rule.params.as_slice(), &concluding, masks);
    }
}

/// Marks what the rule, which concludes this, concludes on the edge.
fn mark_instances(site: &EdgeSite, rule: &Rule, concluded: &FactUse, masks: &mut Vec<u64>)
    requires { length rule.now.params ≤ 6 }
    ensures { Marks (some_concludes site.now.schemas.now site.now.program.now site.now.place site.now.proc.now site.now.edge rule.now concluded.now) masks.old.items masks.new.items }
{
    if may_match(site.proc, rule.pattern, site.edge.node) {
        mark_matching(site, rule, concluded, masks);
    }
}

/// Marks what the rule concludes on the edge. Refused rules and other conclusions are passed over before any binding is
/// tried.
fn mark_rule(site: &EdgeSite, rule: &Rule, ruling: Ruling, masks: &mut Vec<u64>)
    requires { length rule.now.params ≤ 6 }
    ensures { Marks (rule_concludes site.now.schemas.now site.now.program.now site.now.place site.now.proc.now site.now.edge rule.now ruling rule.now.conclusion) masks.old.items masks.new.items }
{
    match (ruling, &rule.conclusion) {
        (Ruling::Admitted, Conclusion::Fact { fact, slot }) if *slot == site.edge.slot => {
            mark_instances(site, rule, fact, masks)
        }
        _ => {}
    }
}

/// Marks what the rules conclude on the edge.
fn mark_rules(site: &EdgeSite, rules: &[Rule], rulings: &[Ruling], masks: &mut Vec<u64>)
    requires { Each (λ (rule : ARule). length rule.params ≤ 6) rules.now }
    ensures { Marks (rules_conclude site.now.schemas.now site.now.program.now site.now.place site.now.proc.now site.now.edge rules.now rulings.now) masks.old.items masks.new.items }
{
    let mut left = rulings;
    for rule in rules {
        let Some((ruling, others)) = left.split_first() else {
            return;
        };
        mark_rule(site, rule, *ruling, masks);
        left = others;
    }
}

/// The edge with a number of the procedure at a place. There is none past the last procedure or the last edge. A
/// procedure has at most 2,049 edges.
fn edge_site(ground: &Ground, place: u32, number: usize) -> Option<EdgeSite<'_>>
    ensures schemas { IfSome result (λ site. site.schemas.now ≡ ground.now.file.schemas) }
    ensures program { IfSome result (λ site. site.program.now ≡ ground.now.program) }
    ensures at { IfSome result (λ site. (site.place ≡ place) × (site.number ≡ number)) }
    ensures none { IfNone result ((proc : AProc) → slice_get ground.now.program place ≡ Some proc → slice_get (edges_of proc) number ≡ None) }
{
    let program = ground.program();
    let layout = ground.layout();
    let proc = program.proc(place)?;
    let laid = layout.procs.as_slice().get(place as usize)?;
    let edge = laid.edges.as_slice().get(number)?;
    Some(EdgeSite {
        schemas: ground.file().schemas(),
        program,
        layout,
        proc,
        domain: &laid.domain,
        place,
        number: number as u32,
        edge: *edge,
    })
}

/// Marks what the rules conclude on the edge with a number of the procedure at a place.
fn mark_edge(
    ground: &Ground,
    rules: &[Rule],
    rulings: &[Ruling],
    place: u32,
    number: usize,
    masks: &mut Vec<u64>,
)
    requires rules { rules.now ≡ ground.now.file.rules }
    requires few { Each (λ (rule : ARule). length rule.params ≤ 6) rules.now }
    ensures { Marks (concluded_on ground.now.file rulings.now ground.now.program place number) masks.old.items masks.new.items }
{
    if let Some(site) = edge_site(ground, place, number) {
        mark_rules(&site, rules, rulings, masks);
    }
}

/// How many edges the procedure at a place has.
fn edge_count(ground: &Ground, place: u32) -> usize
    ensures { result ≡ edge_count ground.now.program place }
{
    match ground.layout().procs.as_slice().get(place as usize) {
        Some(laid) => laid.edges.len(),
        None => 0,
    }
}

/// Marks what the rules conclude on the edges of the procedure at a place.
fn mark_procedure(
    ground: &Ground,
    rules: &[Rule],
    rulings: &[Ruling],
    place: u32,
    masks: &mut Vec<u64>,
)
    requires rules { rules.now ≡ ground.now.file.rules }
    requires few { Each (λ (rule : ARule). length rule.params ≤ 6) rules.now }
    ensures { Marks (concluded_in ground.now.file rulings.now ground.now.program place) masks.old.items masks.new.items }
{
    for number in 0..edge_count(ground, place) {
        mark_edge(ground, rules, rulings, place, number, masks);
    }
}

/// Marks what the rules conclude on all edges.
fn mark_program(ground: &Ground, rules: &[Rule], rulings: &[Ruling], masks: &mut Vec<u64>)
    requires rules { rules.now ≡ ground.now.file.rules }
    requires few { Each (λ (rule : ARule). length rule.params ≤ 6) rules.now }
    ensures { Marks (is_concluded ground.now.file rulings.now ground.now.program) masks.old.items masks.new.items }
{
    for place in 0..ground.program().count() {
        mark_procedure(ground, rules, rulings, place, masks);
    }
}

/// For each word of the system of a program the bits of it that have a row by these rulings. It visits each instance of
/// an admitted rule once for each edge on which it concludes a fact, and takes memory for the words alone.
pub(crate) fn candidates(
    alloc: Global,
    ground: &Ground,
    rulings: &[Ruling],
) -> Result<Vec<u64>, AllocError>
    ensures length { IfOk result (λ masks. vec_len masks ≡ length (full_words ground.now.file.schemas ground.now.program)) }
    ensures bits { IfOk result (λ masks. (bit : ℕ) → bits_in masks.items bit ≡ has_row (rows_of ground.now.file rulings.now ground.now.program) bit) }
{
    let mut masks = vec![in alloc; 0; ground.layout().words() as usize]?;
    mark_program(ground, ground.file().rules(), rulings, &mut masks);
    Ok(masks)
}

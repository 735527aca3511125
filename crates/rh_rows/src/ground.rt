//! The facts of a program under a rule file, by their bits.
ghost use Rattle.std.specs.Prelude.{ℕ, ◌≡◌, ◌≢◌, true, ◌&&◌, Some, length, slice_get, IfErr, IfNone, IfOk, IfSome};
ghost use Rattle.std.specs.List.{find, list_all, position};
ghost use Rattle.std.proofs.Props.{props};
ghost use Rattle.rh_il.specs.declared.program.Proc.{Proc};
ghost use Rattle.rh_il.specs.Flow.{edges_of};
ghost use Rattle.rh_rule.specs.declared.rule.Rule.{Rule as ARule};
ghost use Rattle.rh_domain.specs.declared.fact.FactAt.{FactAt};
ghost use Rattle.rh_domain.specs.Binding.{bindings};
ghost use Rattle.rh_ground.specs.Instance.{is_instance};
ghost use Rattle.rh_ground.specs.Rows.{premises_at};
ghost use Rattle.rh_layout.specs.Bits.{IsBitOf, full_words};
ghost use Rattle.rh_layout.specs.Layout.{IsFaultOf, IsLayoutOf};
ghost use Rattle.rh_rows.specs.BitRows.{rows_of};
ghost use Rattle.rh_rows.specs.Known.{edge_eq, known_in};
ghost use Rattle.rh_rows.specs.Site.{IsBare};
ghost use Rattle.rh_system.specs.Bits.{bits_in};

use crate::instance::first_known;
use crate::site::Site;
use rh_domain::{Args, FactAt};
use rh_il::{Edge, Node, Program};
use rh_layout::{Layout, LayoutFault};
use rh_list::Items;
use rh_rule::{RuleFile, Ruling};
use rh_system::InWords;
use std::alloc::Global;

/// A rule file, whether each rule is proved, and a program, with the bits of the facts on the program's edges.
#[derive(Drop)]
pub struct Ground {
    file: RuleFile,
    rulings: Items<Ruling>,
    program: Program,
    layout: Layout,
    ghost laid: { IsLayoutOf file.schemas program layout } by { Prim.hlevel props },
    ghost as_many: { length file.rules ≡ length rulings },
    ghost covered: { list_all (λ row. bits_in (full_words file.schemas program) row.bit) (rows_of file rulings program) ≡ true },
}

impl Ground {
    /// It has its own copies of the three.
    pub fn new(
        alloc: Global,
        file: &RuleFile,
        rulings: &[Ruling],
        program: &Program,
    ) -> Result<Ground, LayoutFault>
        requires { length file.now.rules ≡ length rulings.now }
        ensures file { IfOk result (λ ground. ground.file ≡ file.now) }
        ensures rulings { IfOk result (λ ground. ground.rulings ≡ rulings.now) }
        ensures program { IfOk result (λ ground. ground.program ≡ program.now) }
        ensures fault { IfErr result (IsFaultOf file.now.schemas program.now) }
    {
        let layout = Layout::new(alloc, file.schemas(), program)?;
        let rulings = Items::from(Vec::from_slice(alloc, rulings)?);
        let file = file.copy(alloc)?;
        let program = program.copy(alloc)?;
        Ok(Ground {
            file,
            rulings,
            program,
            layout,
        })
    }

    /// The rule file that it was made for.
    pub fn file(&self) -> &RuleFile
        ensures { result.now ≡ self.now.file }
    {
        &self.file
    }

    /// The ruling on each rule.
    pub fn rulings(&self) -> &[Ruling]
        ensures value { result.now ≡ self.now.rulings }
        ensures as_many { length self.now.file.rules ≡ length result.now }
    {
        self.rulings.as_slice()
    }

    /// The program that it was made for.
    pub fn program(&self) -> &Program
        ensures { result.now ≡ self.now.program }
    {
        &self.program
    }

    /// Which bit stands for which fact.
    pub fn layout(&self) -> &Layout
        ensures { IsLayoutOf self.now.file.schemas self.now.program result.now }
    {
        &self.layout
    }

    /// The fact that a bit stands for, where it stands for one.
    pub fn fact_of(&self, bit: u64) -> Option<FactAt>
        ensures found { IfSome result (IsBitOf self.now.file.schemas self.now.program bit) }
        ensures none { IfNone result ((fact : FactAt) → ¬ IsBitOf self.now.file.schemas self.now.program bit fact) }
    {
        self.layout.fact_of(self.file.schemas(), bit)
    }

    /// The bit of a fact, where it is one of the program.
    pub fn bit_of(&self, fact: &FactAt) -> Option<u64>
        ensures found { IfSome result (λ bit. IsBitOf self.now.file.schemas self.now.program bit fact.now) }
        ensures none { IfNone result ((bit : ℕ) → ¬ IsBitOf self.now.file.schemas self.now.program bit fact.now) }
    {
        let edge = self.edge_number(fact.proc, fact.edge)?;
        let schemas = self.file.schemas();
        let args = fact.fact.args.as_slice();
        self.layout
            .bit_of(schemas, fact.proc, edge, fact.fact.schema, args)
    }

    /// The number of an edge of a procedure, which has at most 2,049 edges.
    fn edge_number(&self, place: u32, edge: Edge) -> Option<u32>
        ensures found { IfSome result (λ number. (proc : Proc) → slice_get self.now.program place ≡ Some proc → slice_get (edges_of proc) number ≡ Some edge) }
        ensures none { IfNone result ((proc : Proc) (number : ℕ) → slice_get self.now.program place ≡ Some proc → slice_get (edges_of proc) number ≢ Some edge) }
    {
        self.program.proc(place)?;
        let laid = self.layout.procs.as_slice().get(place as usize)?;
        let number = place_of(laid.edges.as_slice(), edge)?;
        Some(number as u32)
    }

    /// A node of the procedure with a number. There is none past the last procedure or the last statement.
    pub(crate) fn site(&self, place: u32, node: Node) -> Option<Site<'_>>
        ensures schemas { IfSome result (λ site. site.schemas.now ≡ self.now.file.schemas) }
        ensures program { IfSome result (λ site. site.program.now ≡ self.now.program) }
        ensures at { IfSome result (λ site. (site.place ≡ place) × (site.node ≡ node)) }
        ensures none { IfNone result (IsBare self.now.program place node) }
    {
        let proc = self.program.proc(place)?;
        let laid = self.layout.procs.as_slice().get(place as usize)?;
        let entering = laid.entering_at(node)?;
        Some(Site {
            schemas: self.file.schemas(),
            program: &self.program,
            layout: &self.layout,
            proc,
            domain: &laid.domain,
            entering,
            place,
            node,
        })
    }

    /// The first binding under which the rule with a number is about a node of a procedure, and under which each of
    /// its premises stands in the words on every edge that enters the node.
    pub fn first_instance(&self, words: &[u64], place: u32, node: Node, rule: u32) -> Option<Args>
        ensures { (proc : Proc) (shape : ARule) → slice_get self.now.program place ≡ Some proc → slice_get self.now.file.rules rule ≡ Some shape
            → result ≡ find (λ binding. is_instance proc shape binding node && list_all (known_in self.now.file.schemas self.now.program words.now) (premises_at place proc shape binding node)) (bindings proc shape.params) }
    {
        let site = self.site(place, node)?;
        let rule = self.file.rules().get(rule as usize)?;
        first_known(&site, &InWords { words }, rule)
    }
}

/// The place at which an edge stands.
fn place_of(edges: &[Edge], edge: Edge) -> Option<usize>
    ensures { result ≡ position (λ other. edge_eq other edge) edges.now }
{
    edges.iter().position(|other| *other == edge)
}

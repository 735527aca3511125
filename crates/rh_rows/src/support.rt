//! The rows of a program's instances as a system. An answer is found by a search for an instance, and takes no memory.
ghost use Rattle.std.specs.Prelude.{◌≡◌, ◌≤◌, length};
ghost use Rattle.rh_list.specs.Each.{Each};
ghost use Rattle.rh_rule.specs.declared.rule.Rule.{Rule as ARule};
ghost use Rattle.rh_system.specs.Rows.{supports};
ghost use Rattle.rh_rows.specs.BitRows.{rows_of};
ghost use Rattle.rh_rows.specs.Support.{gives, is_given, is_headed, rule_gives, rules_give, some_gives};

use crate::ground::Ground;
use crate::premises::premises_known;
use crate::site::Site;
use rh_domain::FactAt;
use rh_ground::{
    Wanted, agreed, first_binding, fixed_by_fact, fixed_by_rule, is_fact_under, is_instance,
};
use rh_il::Slot;
use rh_rule::{Arg, Conclusion, FactUse, Rule, Ruling};
use rh_system::{BitTest, InWords, System};

/// A fact that is looked for, the node that its edge leaves, and the set that has to hold the bits of the premises.
#[derive(Drop)]
struct Sought<'a, T> {
    site: Site<'a>,
    known: &'a T,
    fact: &'a FactAt,
    ghost place_is: { site.place ≡ fact.now.proc },
    ghost node_is: { site.node ≡ fact.now.edge.node },
}

/// A search for a binding under which a rule with this conclusion gives a fact.
#[derive(Drop)]
struct Giving<'a, T> {
    sought: &'a Sought<'a, T>,
    rule: &'a Rule,
    concluded: &'a FactUse,
}

impl<T: BitTest> Wanted for Giving<'_, T> {
    ghost accepts = { λ s. gives s.sought.now.site.schemas.now s.sought.now.site.program.now (T.holds s.sought.now.known.now) s.sought.now.fact.now s.sought.now.site.proc.now s.rule.now s.concluded.now };

    fn accepts(&self, binding: &[Arg]) -> bool {
        let site = &self.sought.site;
        let fact = &self.sought.fact.fact;
        is_instance(site.proc, site.domain, self.rule, binding, site.node)
            && is_fact_under(binding, self.concluded, fact.schema, fact.args.as_slice())
            && premises_known(site, self.sought.known, self.rule, binding)
    }

    fn fixed(&self, meta: u32) -> Option<Arg> {
        let site = &self.sought.site;
        let args = self.sought.fact.fact.args.as_slice();
        agreed(
            fixed_by_rule(site.proc, self.rule, site.node, meta),
            fixed_by_fact(self.concluded, args, meta),
        )
    }
}

/// Whether a rule's conclusion is of the fact's schema, on the fact's edge.
fn is_headed(fact: &FactAt, concluded: &FactUse, slot: Slot) -> bool
    ensures { result ≡ is_headed fact.now concluded.now slot }
{
    concluded.schema == fact.fact.schema && slot == fact.edge.slot
}

/// Whether the rule, which concludes this, gives the fact under some binding.
fn some_gives<T: BitTest>(sought: &Sought<T>, rule: &Rule, concluded: &FactUse) -> bool
    requires { length rule.now.params ≤ 6 }
    ensures { result ≡ some_gives sought.now.site.schemas.now sought.now.site.program.now (T.holds sought.now.known.now) sought.now.fact.now sought.now.site.proc.now rule.now concluded.now }
{
    let giving = Giving {
        sought,
        rule,
        concluded,
    };
    first_binding(sought.site.domain, rule.params.as_slice(), &giving).is_some()
}

/// Whether the rule gives the fact. Refused rules and other conclusions are passed over before any binding is tried.
fn rule_gives<T: BitTest>(sought: &Sought<T>, rule: &Rule, ruling: Ruling) -> bool
    requires { length rule.now.params ≤ 6 }
    ensures { result ≡ rule_gives sought.now.site.schemas.now sought.now.site.program.now (T.holds sought.now.known.now) sought.now.fact.now sought.now.site.proc.now rule.now ruling rule.now.conclusion }
{
    match (ruling, &rule.conclusion) {
        (Ruling::Admitted, Conclusion::Fact { fact, slot }) => {
            is_headed(sought.fact, fact, *slot) && some_gives(sought, rule, fact)
        }
        _ => false,
    }
}

/// Whether some rule gives the fact.
fn rules_give<T: BitTest>(sought: &Sought<T>, rules: &[Rule], rulings: &[Ruling]) -> bool
    requires { Each (λ (rule : ARule). length rule.params ≤ 6) rules.now }
    ensures { result ≡ rules_give sought.now.site.schemas.now sought.now.site.program.now (T.holds sought.now.known.now) sought.now.fact.now sought.now.site.proc.now rules.now rulings.now }
{
    let mut left = rulings;
    for rule in rules {
        let Some((ruling, others)) = left.split_first() else {
            return false;
        };
        if rule_gives(sought, rule, *ruling) {
            return true;
        }
        left = others;
    }
    false
}

/// Whether some rule of the file gives the fact.
fn is_given<T: BitTest>(
    ground: &Ground,
    rules: &[Rule],
    rulings: &[Ruling],
    known: &T,
    fact: &FactAt,
) -> bool
    requires rules { rules.now ≡ ground.now.file.rules }
    requires few { Each (λ (rule : ARule). length rule.params ≤ 6) rules.now }
    ensures { result ≡ is_given ground.now.file rulings.now ground.now.program (T.holds known.now) fact.now }
{
    match ground.site(fact.proc, fact.edge.node) {
        Some(site) => rules_give(&Sought { site, known, fact }, rules, rulings),
        None => false,
    }
}

impl Ground {
    /// Whether some row of the bit has all of its premises in the set.
    pub fn supported_by<T: BitTest>(&self, known: &T, bit: u64) -> bool
        ensures { result ≡ supports (rows_of self.now.file self.now.rulings self.now.program) (T.holds known.now) bit }
    {
        self.supported_under(self.rulings(), known, bit)
    }

    /// The same of the rows that there are by other rulings on the rules.
    pub fn supported_under<T: BitTest>(&self, rulings: &[Ruling], known: &T, bit: u64) -> bool
        ensures { result ≡ supports (rows_of self.now.file rulings.now self.now.program) (T.holds known.now) bit }
    {
        let rules = self.file().rules();
        match self.fact_of(bit) {
            Some(fact) => is_given(self, rules, rulings, known, &fact),
            None => false,
        }
    }
}

impl System for Ground {
    ghost use Rattle.rh_layout.specs.Bits.{full_words};

    ghost full_words = { λ g. full_words g.file.schemas g.program };

    ghost rows = { λ g. rows_of g.file g.rulings g.program };

    fn words(&self) -> u32 {
        self.layout().words()
    }

    fn full(&self, word: u32) -> u64 {
        self.layout().full(word)
    }

    fn supported(&self, words: &[u64], bit: u64) -> bool {
        self.supported_by(&InWords { words }, bit)
    }

    ghost use Rattle.rh_system.specs.Covered.{covered_by_all};

    ghost covered = { λ g. covered_by_all (full_words g.file.schemas g.program) (rows_of g.file g.rulings g.program) g.covered };
}

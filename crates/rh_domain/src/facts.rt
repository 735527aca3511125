//! The facts of a procedure by their number.
ghost use Rattle.std.specs.Prelude.{ℕ, ◌≡◌, ◌≢◌, ◌<◌, ◌≤◌, ◌^◌, Some, length, slice_get, IfOk, IfSome, IfNone};
ghost use Rattle.rh_domain.specs.Count.{AreFew, IsSmall, binding_count, fact_count};
ghost use Rattle.rh_domain.specs.Facts.{facts_of_schema, facts_over};
ghost use Rattle.rh_domain.specs.First.{AreFirsts};

use crate::args::Args;
use crate::domain::Domain;
use crate::fact::GroundFact;
use crate::numbering;
use rh_list::Items;
use rh_rule::{Arg, Schema};
use std::alloc::{AllocError, Global};

/// How many facts there are of schemas.
pub fn fact_count(domain: &Domain, schemas: &[Schema]) -> u128
    requires small { IsSmall domain.now }
    requires few { AreFew schemas.now }
    ensures { result ≡ fact_count domain.now schemas.now }
{
    let mut count = 0;
    for schema in schemas {
        count += numbering::binding_count(domain, schema.params.as_slice());
    }
    count
}

/// For each schema the number of its first fact, and at the end how many facts there are.
pub fn first_numbers(
    alloc: Global,
    domain: &Domain,
    schemas: &[Schema],
) -> Result<Items<u32>, AllocError>
    requires small { IsSmall domain.now }
    requires few { AreFew schemas.now }
    requires within { fact_count domain.now schemas.now ≤ 65536 }
    ensures { IfOk result (AreFirsts domain.now schemas.now) }
{
    let mut firsts = Items::new(alloc);
    let mut next: u32 = 0;
    firsts.push(next)?;
    for schema in schemas {
        next += numbering::binding_count(domain, schema.params.as_slice()) as u32;
        firsts.push(next)?;
    }
    Ok(firsts)
}

/// The number of a fact, where it is one of the procedure.
pub fn number_of(
    domain: &Domain,
    schemas: &[Schema],
    firsts: &[u32],
    schema: u32,
    args: &[Arg],
) -> Option<u32>
    requires small { IsSmall domain.now }
    requires within { fact_count domain.now schemas.now ≤ 65536 }
    requires firsts { AreFirsts domain.now schemas.now firsts.now }
    ensures found { IfSome result (λ number. slice_get (facts_over domain.now schemas.now) number ≡ Some (record { schema = schema; args = args.now })) }
    ensures none { IfNone result ((number : ℕ) → slice_get (facts_over domain.now schemas.now) number ≢ Some (record { schema = schema; args = args.now })) }
{
    let place = schema as usize;
    if place >= schemas.len() {
        return None;
    }
    let Some((number, _)) = numbering::number_of(domain, schemas[place].params.as_slice(), args)
    else {
        return None;
    };
    Some(firsts[place] + number)
}

/// The fact of a schema with a number among so many of them.
fn fact_of_schema(
    domain: &Domain,
    shape: &Schema,
    schema: u32,
    count: u32,
    number: u32,
) -> GroundFact
    requires small { IsSmall domain.now }
    requires few { length shape.now.params ≤ 6 }
    requires count { count ≡ binding_count domain.now shape.now.params }
    requires below { number < count }
    ensures { slice_get (facts_of_schema domain.now schema shape.now) number ≡ Some result }
{
    let mut args = Args::new();
    numbering::push_args(domain, shape.params.as_slice(), count, number, &mut args);
    GroundFact { schema, args }
}

/// The fact with a number, where there are so many.
pub fn fact_at(
    domain: &Domain,
    schemas: &[Schema],
    firsts: &[u32],
    number: u32,
) -> Option<GroundFact>
    requires small { IsSmall domain.now }
    requires few { AreFew schemas.now }
    requires firsts { AreFirsts domain.now schemas.now firsts.now }
    ensures { result ≡ slice_get (facts_over domain.now schemas.now) number }
{
    for schema in 0..schemas.len() {
        let first = firsts[schema];
        let next = firsts[schema + 1];
        if number < next {
            return Some(fact_of_schema(
                domain,
                &schemas[schema],
                schema as u32,
                next - first,
                number - first,
            ));
        }
    }
    None
}

//! The values of replicated alternatives.
ghost use Rattle.std.specs.Prelude.{◌≡◌, ◌++◌, [], ◌∷◌, ◌+◌, ◌*◌, ◌<◌, ◌≤◌, ◌^◌, ℕ, ℤ, pos, ◌+ℤ◌, ◌≤ℤ◌, Some, length, OnOk, IfErr};
ghost use Rattle.pfc_semantics.specs.Displays.{Spot};
ghost use Rattle.pfc_semantics.specs.Alternatives as alternatives;
ghost use Rattle.pfc_translation.specs.Sites.{context_of};
ghost use Rattle.pfc_translation.specs.Selects.{replica_code};
ghost use Rattle.pfc_translation.specs.Statements as statements;
ghost use Rattle.pfc_emit.specs.declared.emitter.EmitFault.TheVariants.{Full, Memory as NoMemory};
ghost use Rattle.pfc_addresses.specs.Sites.{site_view};
ghost use Rattle.pfc_expression_code.specs.Putting.{IsMade, IsTooLarge};
ghost use Rattle.pfc_select_code.specs.Values.{at_value, at_values};

use pfc_addresses::Site;
use pfc_base::Name;
use pfc_code::Instr;
use pfc_emit::EmitFault;
use pfc_expression_code::Coder;
use pfc_facts::spread_values;
use pfc_tree::Spread;
use pfc_types::value_count;

/// So many values from a low one on.
#[derive(Clone, Copy)]
pub(crate) struct Values {
    pub low: i32,
    pub count: u64,
    ghost few: { count ≤ 2 ^ 32 },
    ghost last: { (low +ℤ pos count) ≤ℤ pos (2 ^ 31) },
}

impl Values {
    /// The k-th value, from 0.
    pub(crate) fn at(self, k: u64) -> i32
        requires { k < self.count }
        ensures { result ≡ self.low +ℤ pos k }
    {
        (self.low as i64 + k as i64) as i32
    }
}

/// The values of a spread; none where a constant is faulty, or the low value above the high one.
pub(crate) fn values_of(s: &Spread, site: Site) -> Values
    ensures { at_values (site_view site.entry) s.now.name result.low result.count ≡ alternatives.replicas (context_of (site_view site.entry)) s.now }
{
    match spread_values(s, site.env()) {
        Some((low, high)) => values_between(low, high),
        None => Values { low: 0, count: 0 },
    }
}

/// The values from a low one to a high one; none where that is below it.
fn values_between(low: i32, high: i32) -> Values
    ensures { (s : Spot) (line : ℕ) → alternatives.replicas_from s line result.low result.count ≡ alternatives.replicas_between s line low high }
{
    if low <= high {
        Values {
            low,
            count: value_count(low, high),
        }
    } else {
        Values { low, count: 0 }
    }
}

/// Puts that the variable of a replicated alternative has a value: its address, LIT, STORE.
pub(crate) fn write(name: &Name, value: i32, site: Site, made: &mut Coder) -> Result<(), EmitFault>
    ensures code { OnOk result (IsMade (replica_code (site_view site.entry) (Some (at_value (site_view site.entry) name.now value))) made.old made.new) }
    ensures large { IfErr result (λ fault. fault ≡ Full →
        IsTooLarge (replica_code (site_view site.entry) (Some (at_value (site_view site.entry) name.now value))) made.old) }
{
    made.put(site.base(name).instr, site)?;
    made.put(Instr::LIT(value), site)?;
    made.put(Instr::STORE(1), site)
}

/// Puts for each value of a spread that its variable has it again, where it is chosen; nothing where nothing is replicated. The code of each
/// value has four instructions, and goes on behind the last of them.
pub fn choose(spread: &Option<Spread>, site: Site, made: &mut Coder) -> Result<(), EmitFault>
    ensures code { OnOk result (IsMade (statements.chosen_code (site_view site.entry) (statements.spread_replicas (site_view site.entry) spread.now))
        made.old made.new) }
    ensures large { IfErr result (λ fault. fault ≡ Full →
        IsTooLarge (statements.chosen_code (site_view site.entry) (statements.spread_replicas (site_view site.entry) spread.now)) made.old) }
{
    match spread {
        Some(s) => choose_each(values_of(s, site), &s.name, site, made),
        None => Ok(()),
    }
}

/// The same for these values of a variable.
fn choose_each(values: Values, name: &Name, site: Site, made: &mut Coder) -> Result<(), EmitFault>
    ensures code { OnOk result (IsMade (statements.chosen_code (site_view site.entry) (at_values (site_view site.entry) name.now values.low values.count))
        made.old made.new) }
    ensures large { IfErr result (λ fault. fault ≡ Full →
        IsTooLarge (statements.chosen_code (site_view site.entry) (at_values (site_view site.entry) name.now values.low values.count)) made.old) }
{
    let Ok(behind) = u32::try_from(made.here() as u64 + 4 * values.count) else {
        return Err(EmitFault::Full);
    };
    for k in 0..values.count {
        write(name, values.at(k), site, made)?;
        made.put(Instr::JMP(behind), site)?;
    }
    Ok(())
}

/// Adds where the branches of an alternative begin whose branch begins at the address `from`: one for each value of its spread, of four
/// instructions each, or that alone. Its only refusal is want of memory; an address of more than 32 bits is that too.
pub fn add_branches(
    spread: &Option<Spread>,
    from: u32,
    site: Site,
    branches: &mut Vec<u32>,
) -> Result<(), EmitFault>
    ensures branches { OnOk result (branches.new.items ≡ branches.old.items ++ statements.branches_from (site_view site.entry) from spread.now) }
    ensures fault { IfErr result (λ fault. fault ≡ NoMemory) }
{
    match spread {
        Some(s) => add_each(values_of(s, site).count, from, branches),
        None => add(from, branches),
    }
}

/// Adds so many addresses that are four apart.
fn add_each(count: u64, from: u32, branches: &mut Vec<u32>) -> Result<(), EmitFault>
    requires { count ≤ 2 ^ 32 }
    ensures branches { (s : Spot) (line : ℕ) (low : ℤ) →
        OnOk result (branches.new.items ≡ branches.old.items ++ statements.replica_branches from (alternatives.replicas_from s line low count)) }
    ensures fault { IfErr result (λ fault. fault ≡ NoMemory) }
{
    for k in 0..count {
        match u32::try_from(from as u64 + 4 * k) {
            Ok(branch) => add(branch, branches)?,
            Err(_) => return Err(EmitFault::Memory),
        }
    }
    Ok(())
}

/// Adds an address.
fn add(branch: u32, branches: &mut Vec<u32>) -> Result<(), EmitFault>
    ensures branches { OnOk result (branches.new.items ≡ branches.old.items ++ branch ∷ []) }
    ensures fault { IfErr result (λ fault. fault ≡ NoMemory) }
{
    match branches.push(branch) {
        Ok(()) => Ok(()),
        Err(_) => Err(EmitFault::Memory),
    }
}

//! What a worker does by the places of its names and policies.
ghost use Rattle.std.specs.Prelude.{◌≡◌, ◌<◌, ◌≤◌, [], ◌∷◌, length, map, true, IfOk, MatchOption, IfSome};
ghost use Rattle.trace_text.specs.Document.{rename};
ghost use Rattle.trace_text.specs.Lines.{is_declared, is_in_range, may_do, is_attach};
ghost use Rattle.name_order.specs.Places.{ArePutBehind};
ghost use Rattle.trace_text.specs.Spelled.{act_said, act_names};
ghost use Rattle.trace_text.specs.Traces.{policy_of, dir_act, act_of, IsActOf};
ghost use Rattle.name_order.specs.Names.{name_at};
ghost use Rattle.dir_table.specs.Meanings.{IsAdmitted};

use crate::spelled::SpelledAct;
use crate::trace::{NamedSource, TraceAct};
use dir_table::DirCall;
use doc_text::is_same;
use name_order::Gathered;
use policy_text::NoMemory;

// The place of a policy that is declared.
fn policy_place(policies: &[NamedSource], name: &[u8]) -> u32
    requires declared { is_declared (map policy_of policies.now) name.now ≡ true }
    requires few { length policies.now ≤ 64 }
    ensures within { result < length policies.now }
    ensures found { name_at (map (λ p. p.name.items) policies.now) result ≡ name.now }
{
    for (k, policy) in policies.iter().enumerate() {
        if is_same(policy.name.as_slice(), name) {
            return k as u32;
        }
    }
    unreachable!()
}

// The new name of a call that renames, and the call.
fn renames<'a>(
    names: &mut Gathered<'a>,
    dirs: (u8, u8),
    name: &'a [u8],
    to_name: &'a [u8],
) -> Result<DirCall, NoMemory>
    requires few { length names.old < 4294967294 }
    requires ranged { (dirs.0 < 64) × (dirs.1 < 64) }
    ensures said { IfOk result (λ c.
        dir_act names.new c ≡ rename dirs.0 name.now dirs.1 to_name.now) }
    ensures admitted { IfOk result (IsAdmitted (length names.new)) }
    ensures put { ArePutBehind names.old (name.now ∷ to_name.now ∷ []) names.new }
{
    let place = names.place(name)?;
    let to_place = names.place(to_name)?;
    Ok(DirCall::Rename {
        dir: dirs.0,
        name: place,
        to_dir: dirs.1,
        to_name: to_place,
    })
}

// A call on the directory, by the places of its names, which are put behind the others where they are new.
fn dir_call<'a>(names: &mut Gathered<'a>, act: &SpelledAct<'a>) -> Result<Option<DirCall>, NoMemory>
    requires few { length names.old < 4294967294 }
    requires ranged { is_in_range (act_said act.now) ≡ true }
    ensures said { IfOk result (λ o. MatchOption o
        (is_attach (act_said act.now) ≡ true)
        (λ c. dir_act names.new c ≡ act_said act.now)) }
    ensures admitted { IfOk result (λ o. IfSome o (IsAdmitted (length names.new))) }
    ensures put { ArePutBehind names.old (act_names (act_said act.now)) names.new }
{
    let call = match act {
        SpelledAct::Make { dir, name } => DirCall::Make {
            dir: *dir,
            name: names.place(name)?,
        },
        SpelledAct::Drop { dir, name } => DirCall::Drop {
            dir: *dir,
            name: names.place(name)?,
        },
        SpelledAct::Rename {
            dir,
            name,
            to_dir,
            to_name,
        } => renames(names, (*dir, *to_dir), name, to_name)?,
        SpelledAct::Find { dir, name } => DirCall::Find {
            dir: *dir,
            name: names.place(name)?,
        },
        SpelledAct::Count { dir } => DirCall::Count { dir: *dir },
        SpelledAct::Next { dir, after: None } => DirCall::Next {
            dir: *dir,
            after: None,
        },
        SpelledAct::Next {
            dir,
            after: Some(name),
        } => DirCall::Next {
            dir: *dir,
            after: Some(names.place(name)?),
        },
        SpelledAct::Attach { .. } => return Ok(None),
    };
    Ok(Some(call))
}

/// What a worker does, by places.
pub fn numbered_act<'a>(
    names: &mut Gathered<'a>,
    policies: &[NamedSource],
    worker: u32,
    act: &SpelledAct<'a>,
) -> Result<TraceAct, NoMemory>
    requires few { length names.old < 4294967294 }
    requires declared { may_do (map policy_of policies.now) worker (act_said act.now) ≡ true }
    requires few_policies { length policies.now ≤ 64 }
    requires ranged { is_in_range (act_said act.now) ≡ true }
    ensures said { IfOk result (λ a.
        act_of names.new (map (λ p. p.name.items) policies.now) a ≡ act_said act.now) }
    ensures named { IfOk result (IsActOf (length names.new) (length policies.now) worker) }
    ensures put { ArePutBehind names.old (act_names (act_said act.now)) names.new }
{
    match act {
        SpelledAct::Attach { name } => Ok(TraceAct::Attach(policy_place(policies, name))),
        _ => match dir_call(names, act)? {
            Some(call) => Ok(TraceAct::Dir(call)),
            None => unreachable!(),
        },
    }
}

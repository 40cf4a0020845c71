//! The first line of a document, and in version 2 the line that names the profile.
ghost use Rattle.std.specs.Prelude.{◌≡◌, ◌≤◌, ◌++◌, IfOk, OnOk};
ghost use Rattle.std.specs.List.{flat_map};
ghost use Rattle.doc_text.specs.Text.{pieces, ended};
ghost use Rattle.doc_text.specs.Words.{words};
ghost use Rattle.doc_text.specs.Faults.{Gives, one_of};
ghost use Rattle.policy_text.specs.Headings.{version_in, profile_in, heading, heading_in, heading_lines, version_words};
ghost use Rattle.policy_text.specs.Blanks.{blanked};

use crate::error::NoMemory;
use crate::writing::push_word;
use bpf_isa::Profile;
use doc_text::{Fault, is_same, line_due, or_fault, push_line, two_words};

fn version_of(title: &[u8], text: &[u8]) -> Option<u8>
    ensures { result ≡ version_in title.now (words text.now) }
{
    let (word, number) = two_words(text)?;
    if !is_same(word, title) {
        None
    } else if is_same(number, b"1") {
        Some(1)
    } else if is_same(number, b"2") {
        Some(2)
    } else {
        None
    }
}

fn profile_of(text: &[u8]) -> Option<Profile>
    ensures { result ≡ profile_in (words text.now) }
{
    let (word, number) = two_words(text)?;
    if !is_same(word, b"profile") {
        None
    } else if is_same(number, b"1") {
        Some(Profile::One)
    } else if is_same(number, b"2") {
        Some(Profile::Two)
    } else {
        None
    }
}

#[tactic(auto, unfolding(doc_text::specs::Faults::one_of))]
fn version_due<'a>(title: &[u8], bytes: &'a [u8]) -> Result<(u8, &'a [u8]), Fault>
    ensures { Gives (λ x. (x.0, pieces x.1.now)) result
        (one_of 1 2 (version_in title.now) (pieces bytes.now)) }
{
    let (text, rest) = line_due(bytes, 1, 2)?;
    let version = or_fault(version_of(title, text), 1, 2)?;
    Ok((version, rest))
}

/// The profile that the second line names, and the bytes behind it. A bad or missing line is the fault `what`.
#[tactic(auto, unfolding(doc_text::specs::Faults::one_of))]
pub fn profile_due(bytes: &[u8], what: u8) -> Result<(Profile, &[u8]), Fault>
    ensures { Gives (λ x. (x.0, pieces x.1.now)) result
        (one_of 2 what profile_in (pieces bytes.now)) }
{
    let (text, rest) = line_due(bytes, 2, what)?;
    let profile = or_fault(profile_of(text), 2, what)?;
    Ok((profile, rest))
}

/// The version and the profile of a document of this title, and the bytes behind its first line or lines. A bad first line is
/// fault 2, a bad or missing profile line the fault `what`.
#[tactic(auto, unfolding(crate::specs::Headings::heading_in))]
pub fn heading_of<'a>(
    title: &[u8],
    what: u8,
    bytes: &'a [u8],
) -> Result<(u8, Profile, &'a [u8]), Fault>
    ensures exact { Gives (λ x. heading x.0 x.1 (pieces x.2.now)) result
        (heading_in title.now what (pieces bytes.now)) }
    ensures known { IfOk result (λ x. x.0 ≤ 2) }
{
    let (version, rest) = version_due(title, bytes)?;
    if version == 1 {
        return Ok((1, Profile::One, rest));
    }
    let (profile, rest) = profile_due(rest, what)?;
    Ok((2, profile, rest))
}

/// Writes the first line, and in version 2 the profile line.
#[tactic(auto, using(crate::proofs::Written::joined_rules))]
pub fn push_heading(
    out: &mut Vec<u8>,
    title: &[u8],
    version: u8,
    profile: Profile,
) -> Result<(), NoMemory>
    ensures { OnOk result (out.new.items
        ≡ out.old.items ++ flat_map ended (heading_lines title.now version profile)) }
{
    out.extend_from_slice(title)?;
    if version == 1 {
        push_line(out, b" 1")?;
        return Ok(());
    }
    push_line(out, b" 2")?;
    match profile {
        Profile::One => push_line(out, b"profile 1")?,
        Profile::Two => push_line(out, b"profile 2")?,
    }
    Ok(())
}

/// Writes the version, and in version 2 the profile, each word behind a blank.
#[tactic(auto, using(crate::proofs::Written::joined_rules))]
pub fn push_version(out: &mut Vec<u8>, version: u8, profile: Profile) -> Result<(), NoMemory>
    ensures { OnOk result (out.new.items
        ≡ out.old.items ++ blanked (version_words version profile)) }
{
    if version == 1 {
        return push_word(out, b"1");
    }
    push_word(out, b"2")?;
    push_word(out, b"profile")?;
    match profile {
        Profile::One => push_word(out, b"1"),
        Profile::Two => push_word(out, b"2"),
    }
}

ghost use Rattle.std.specs.Prelude.{◌≡◌, ◌++◌, All, IfErr, OnOk, length, ◌⊎◌};
ghost use Rattle.cert_text.specs.Limits.{IsCycleWithin, IsLong, IsMemberWithin, IsPointWithin, IsStorageWithin, NameWithin};
ghost use Rattle.std.specs.String.{string_bytes};
ghost use Rattle.cert_text.specs.Overlong.{GivesUp};
ghost use Rattle.std.specs.List.{flat_map};
ghost use Rattle.cert_text.specs.CycleLines.{cycle_lines};
ghost use Rattle.cert_text.specs.MemberLines.{member_lines, point_lines};
ghost use Rattle.cert_text.specs.Orderly.{IsStorageOrderly, NameOnes};
ghost use Rattle.cert_text.specs.Spelling.{cycle_list, member_list, point_list, storage_lines, storage_lists};

use crate::certificates::{LinkCycle, MemberLine, PointLine, StorageCertificate};
use crate::error::CertError;
use crate::writing::cycles::put_cycle;
use crate::writing::limit::keep_within;
use crate::writing::members::put_member;
use crate::writing::numbers::{
    put_cycles_line, put_limit, put_members_line, put_overlap, put_points_line,
};
use crate::writing::points::put_point;

/// Puts the lines of a certificate of a trade-off, but for the first one.
#[tactic(auto, unfolding(crate::specs::Spelling::storage_lines, crate::specs::Spelling::storage_kind))]
pub(crate) fn put_storage_certificate(
    text: &mut String,
    certificate: &StorageCertificate,
    version: u32,
) -> Result<(), CertError>
    requires { IsStorageOrderly certificate.now }
    ensures text { OnOk result (string_bytes text.new ≡ string_bytes text.old ++ storage_lines version certificate.now) }
    ensures long { IfErr result (GivesUp (string_bytes text.old) (storage_lines version certificate.now)) }
    ensures within { OnOk result ((version ≡ 1) ⊎ (version ≡ 2) → IsStorageWithin certificate.now) }
{
    let cycles = certificate.cycles.as_slice();
    let members = certificate.members.as_slice();
    let points = certificate.points.as_slice();
    text.push_str("storage\n")?;
    put_overlap(text, certificate.no_overlap)?;
    put_limit(text, certificate.limit)?;
    put_lists(text, cycles, members, points, version)
}

#[tactic(auto, unfolding(crate::specs::Spelling::storage_lists, crate::specs::Spelling::end_line))]
fn put_lists(
    text: &mut String,
    cycles: &[LinkCycle],
    members: &[MemberLine],
    points: &[PointLine],
    version: u32,
) -> Result<(), CertError>
    requires { NameOnes (length cycles.now) members.now }
    ensures text { OnOk result (string_bytes text.new ≡ string_bytes text.old ++ storage_lists version cycles.now members.now points.now) }
    ensures long { IfErr result (GivesUp (string_bytes text.old) (storage_lists version cycles.now members.now points.now)) }
    ensures cycles { OnOk result (version ≡ 2 → IsLong (length cycles.now) × All IsCycleWithin cycles.now) }
    ensures named { OnOk result (version ≡ 1 → NameWithin cycles.now members.now) }
    ensures members { OnOk result (IsLong (length members.now) × All IsMemberWithin members.now) }
    ensures points { OnOk result (IsLong (length points.now) × All IsPointWithin points.now) }
{
    put_cycles(text, cycles, version)?;
    put_members(text, members, cycles, version)?;
    put_points(text, points)?;
    Ok(text.push_str("end\n")?)
}

#[tactic(auto, unfolding(crate::specs::Spelling::cycle_list))]
fn put_cycles(text: &mut String, cycles: &[LinkCycle], version: u32) -> Result<(), CertError>
    ensures text { OnOk result (string_bytes text.new ≡ string_bytes text.old ++ cycle_list version cycles.now) }
    ensures long { IfErr result (GivesUp (string_bytes text.old) (cycle_list version cycles.now)) }
    ensures within { OnOk result (version ≡ 2 → IsLong (length cycles.now) × All IsCycleWithin cycles.now) }
{
    if version == 1 {
        return Ok(());
    }
    put_cycles_line(text, cycles.len())?;
    put_each_cycle(text, cycles)
}

fn put_each_cycle(text: &mut String, cycles: &[LinkCycle]) -> Result<(), CertError>
    ensures text { OnOk result (string_bytes text.new ≡ string_bytes text.old ++ flat_map cycle_lines cycles.now) }
    ensures long { IfErr result (GivesUp (string_bytes text.old) (flat_map cycle_lines cycles.now)) }
    ensures within { OnOk result (All IsCycleWithin cycles.now) }
{
    for cycle in cycles {
        put_cycle(text, cycle)?;
        keep_within(text)?;
    }
    Ok(())
}

#[tactic(auto, unfolding(crate::specs::Spelling::member_list))]
fn put_members(
    text: &mut String,
    members: &[MemberLine],
    cycles: &[LinkCycle],
    version: u32,
) -> Result<(), CertError>
    requires { NameOnes (length cycles.now) members.now }
    ensures text { OnOk result (string_bytes text.new ≡ string_bytes text.old ++ member_list version cycles.now members.now) }
    ensures long { IfErr result (GivesUp (string_bytes text.old) (member_list version cycles.now members.now)) }
    ensures within { OnOk result (IsLong (length members.now) × All IsMemberWithin members.now) }
    ensures named { OnOk result (version ≡ 1 → NameWithin cycles.now members.now) }
{
    put_members_line(text, members.len())?;
    put_each_member(text, members, cycles, version)
}

fn put_each_member(
    text: &mut String,
    members: &[MemberLine],
    cycles: &[LinkCycle],
    version: u32,
) -> Result<(), CertError>
    requires { NameOnes (length cycles.now) members.now }
    ensures text { OnOk result (string_bytes text.new ≡ string_bytes text.old ++ flat_map (member_lines version cycles.now) members.now) }
    ensures long { IfErr result (GivesUp (string_bytes text.old) (flat_map (member_lines version cycles.now) members.now)) }
    ensures within { OnOk result (All IsMemberWithin members.now) }
    ensures named { OnOk result (version ≡ 1 → NameWithin cycles.now members.now) }
{
    for member in members {
        put_member(text, member, cycles, version)?;
        keep_within(text)?;
    }
    Ok(())
}

#[tactic(auto, unfolding(crate::specs::Spelling::point_list))]
fn put_points(text: &mut String, points: &[PointLine]) -> Result<(), CertError>
    ensures text { OnOk result (string_bytes text.new ≡ string_bytes text.old ++ point_list points.now) }
    ensures long { IfErr result (GivesUp (string_bytes text.old) (point_list points.now)) }
    ensures within { OnOk result (IsLong (length points.now) × All IsPointWithin points.now) }
{
    put_points_line(text, points.len())?;
    put_each_point(text, points)
}

fn put_each_point(text: &mut String, points: &[PointLine]) -> Result<(), CertError>
    ensures text { OnOk result (string_bytes text.new ≡ string_bytes text.old ++ flat_map point_lines points.now) }
    ensures long { IfErr result (GivesUp (string_bytes text.old) (flat_map point_lines points.now)) }
    ensures within { OnOk result (All IsPointWithin points.now) }
{
    for point in points {
        put_point(text, point)?;
        keep_within(text)?;
    }
    Ok(())
}

//! The lines of regions and their members.

ghost use Rattle.std.specs.Prelude.{◌≡◌, ◌++◌, OnOk, string_bytes};
ghost use Rattle.std.specs.List.{flat_map};
ghost use Rattle.omi_text.specs.Lines.{line};
ghost use Rattle.omi_text.specs.Parts.{spaced, region_name, region_variables, region_around};
ghost use Rattle.omi_text.specs.Regions.{region_line, member_line, member_lines, region_lines};

use crate::OutOfMemory;
use crate::ids::{push_region, push_region_or_none, push_task};
use crate::numbers::push_hexadecimal;
use omi_model::{MemberRow, MemberRows, RegionRow, RegionRows};
use std::fmt::Write;

/// Adds the front of a region's line: its name and its function.
#[tactic(auto, unfolding(crate::specs::Parts::region_name))]
fn push_name(text: &mut String, row: &RegionRow) -> Result<(), OutOfMemory>
    ensures { OnOk result (string_bytes text.new
        ≡ string_bytes text.old ++ spaced (region_name row.now)) }
{
    text.push_str("region ")?;
    push_region(text, row.region)?;
    text.push_str(" function ")?;
    push_hexadecimal(text, row.func)?;
    text.push_str(" ")
}

/// Adds levels-var, active-levels-var and team-size-var of a region.
#[tactic(auto, unfolding(crate::specs::Parts::region_variables))]
fn push_variables(text: &mut String, row: &RegionRow) -> Result<(), OutOfMemory>
    ensures { OnOk result (string_bytes text.new
        ≡ string_bytes text.old ++ spaced (region_variables row.now)) }
{
    write!(
        text,
        "levels-var={} active-levels-var={} team-size-var={} ",
        row.levels, row.active, row.size
    )
}

/// Adds the end of a region's line: the region around it.
#[tactic(auto, unfolding(crate::specs::Parts::region_around))]
fn push_around(text: &mut String, row: &RegionRow) -> Result<(), OutOfMemory>
    ensures { OnOk result (string_bytes text.new
        ≡ string_bytes text.old ++ line (region_around row.now)) }
{
    text.push_str("enclosing ")?;
    push_region_or_none(text, row.enclosing)?;
    text.push_str("\n")
}

/// Adds the line of a region.
fn push_region_line(text: &mut String, row: &RegionRow) -> Result<(), OutOfMemory>
    ensures { OnOk result (string_bytes text.new ≡ string_bytes text.old ++ region_line row.now) }
{
    push_name(text, row)?;
    push_variables(text, row)?;
    push_around(text, row)
}

/// Adds the line of a member.
#[tactic(auto, unfolding(crate::specs::Regions::member_line))]
fn push_member(text: &mut String, number: usize, row: &MemberRow) -> Result<(), OutOfMemory>
    ensures { OnOk result (string_bytes text.new
        ≡ string_bytes text.old ++ member_line number row.now) }
{
    write!(text, "member {number} thread {} task ", row.thread)?;
    push_task(text, row.task)?;
    text.push_str("\n")
}

/// Adds the line of each member.
fn push_members(text: &mut String, rows: &MemberRows) -> Result<(), OutOfMemory>
    ensures { OnOk result (string_bytes text.new
        ≡ string_bytes text.old ++ member_lines 0 rows.now) }
{
    for at in 0..rows.len() {
        push_member(text, at, rows.get(at))?;
    }
    Ok(())
}

/// Adds the line of a region and those of its members.
fn push_region_lines(text: &mut String, row: &RegionRow) -> Result<(), OutOfMemory>
    ensures { OnOk result (string_bytes text.new ≡ string_bytes text.old ++ region_lines row.now) }
{
    push_region_line(text, row)?;
    push_members(text, &row.members)
}

/// Adds the lines of each region.
pub fn push_regions(text: &mut String, rows: &RegionRows) -> Result<(), OutOfMemory>
    ensures { OnOk result (string_bytes text.new
        ≡ string_bytes text.old ++ flat_map region_lines rows.now) }
{
    for at in 0..rows.len() {
        push_region_lines(text, rows.get(at))?;
    }
    Ok(())
}

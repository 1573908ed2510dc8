//! Rotation lists written as a record of planar_code, narrow or wide.
ghost use Rattle.std.specs.Prelude.{◌≡◌, ◌+◌, ◌<◌, ◌≤◌, ◌++◌, length, take, OnOk, OnErr};
ghost use Rattle.planar_code.specs.Reading.{IsRecord};
ghost use Rattle.planar_code.specs.Scan.{most_lists};
ghost use Rattle.planar_code.specs.Write.{spelled, entry_limit, first_bytes, record_bytes, is_wide, AreBelow};

use map_lists::Rotations;
use std::alloc::AllocError;

// Appends `number` to `out`, in two bytes if `wide` is set, else in one. It fails only when out of memory, and may then
// have appended the first of two.
fn write_number(wide: bool, number: u16, out: &mut Vec<u8>) -> Result<(), AllocError>
    requires { number ≤ entry_limit wide }
    ensures ok { OnOk result (out.new.items ≡ out.old.items ++ spelled wide number) }
    ensures err { OnErr result (take (length out.old.items) out.new.items ≡ out.old.items) }
{
    if wide {
        out.push((number / 256) as u8)?;
        out.push((number % 256) as u8)?;
        Ok(())
    } else {
        out.push(number as u8)?;
        Ok(())
    }
}

// Appends to `out` the byte 0 with which a wide record begins, if `wide` is set. When memory runs out `out` is
// unchanged.
fn write_first(wide: bool, out: &mut Vec<u8>) -> Result<(), AllocError>
    ensures ok { OnOk result (out.new.items ≡ out.old.items ++ first_bytes wide) }
    ensures err { OnErr result (out.new.items ≡ out.old.items) }
{
    if wide {
        out.push(0)?;
        Ok(())
    } else {
        Ok(())
    }
}

// Appends the record of `lists` to `out`. It fails only when out of memory, and may then have appended a part of it.
fn write_whole(lists: &Rotations, out: &mut Vec<u8>) -> Result<(), AllocError>
    requires few { length lists.now ≤ most_lists }
    requires below { AreBelow (entry_limit (is_wide lists.now)) lists.now }
    ensures ok { OnOk result (out.new.items ≡ out.old.items ++ record_bytes lists.now) }
    ensures err { OnErr result (take (length out.old.items) out.new.items ≡ out.old.items) }
{
    let wide = 255 < lists.len();
    write_first(wide, out)?;
    write_number(wide, lists.len() as u16, out)?;
    for v in 0..lists.len() {
        let list = lists.list(v);
        for k in 0..list.len() {
            write_number(wide, list[k] + 1, out)?;
        }
        write_number(wide, 0, out)?;
    }
    Ok(())
}

/// Appends the record of `lists`, 1 to 4095 of them, to `out`: narrow for at most 255 lists, else wide. Entries are
/// below 255 in the narrow form and below 65535 in the wide one. When memory runs out `out` is unchanged.
pub fn write_record(lists: &Rotations, out: &mut Vec<u8>) -> Result<(), AllocError>
    requires some { 0 < length lists.now }
    requires few { length lists.now ≤ most_lists }
    requires below { AreBelow (entry_limit (is_wide lists.now)) lists.now }
    ensures written { OnOk result (out.new.items ≡ out.old.items ++ record_bytes lists.now) }
    ensures reads { IsRecord (record_bytes lists.now) lists.now }
    ensures err { OnErr result (out.new.items ≡ out.old.items) }
{
    let before = out.len();
    match write_whole(lists, out) {
        Ok(()) => Ok(()),
        Err(_) => {
            out.truncate(before);
            Err(AllocError)
        }
    }
}

// What is read of a sheet's own tables: LEVEL of a part, and the part 2^k steps above one.

ghost use Rattle.std.specs.Prelude.{◌≡◌, ◌≤◌, ◌<◌, length};
ghost use Rattle.bits.specs.Bits.{log2, IsBelow};
ghost use Rattle.tree.specs.Tree.{level};
ghost use Rattle.tree.specs.Tables.{own};
ghost use Rattle.tree.specs.Routes.{level_at};
ghost use Rattle.tree.specs.Trail.{lift_at};
ghost use Rattle.tree.specs.Nodes.{Small};

use tree::OwnTables;

// LEVEL of v.
pub(crate) fn level(sheet: &OwnTables<'_>, v: usize) -> u16
    requires { Small sheet.now × (v < length sheet.now) }
    ensures cell { result ≡ level_at (own sheet.now) v }
    ensures steps { IsBelow (level sheet.now v) (length sheet.now) result }
{
    sheet.label()[2 * sheet.len() + v]
}

// The part 2^k steps above v, or the root.
pub(crate) fn lifted(sheet: &OwnTables<'_>, k: usize, v: usize) -> usize
    requires { Small sheet.now × (k ≤ log2 (length sheet.now)) × (v < length sheet.now) }
    ensures { IsBelow (lift_at (own sheet.now) k v) (length sheet.now) result }
{
    sheet.lift()[k * sheet.len() + v] as usize
}

// Where branches go.

ghost use Rattle.std.specs.Prelude.{◌≡◌, pos, length};
ghost use Rattle.f77_tree.specs.Execution.{by_sign, by_number};

use df_sequence::LabelList;

// The successor of an arithmetic IF.
pub fn successor_by_sign(z: i32, neg: u32, zero: u32, pos: u32) -> u32
    ensures { result ≡ by_sign neg zero pos z }
{
    if z < 0 {
        neg
    } else if z == 0 {
        zero
    } else {
        pos
    }
}

// The successor of a computed GO TO.
pub fn successor_by_number(v: i32, targets: &LabelList, other: u32) -> u32
    ensures { result ≡ by_number targets.now other (pos (length targets.now)) v }
{
    if v < 1 || targets.len() < v as u32 {
        return other;
    }
    *targets.at(v as u32 - 1)
}

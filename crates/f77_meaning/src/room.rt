ghost use Rattle.std.specs.Prelude.{◌≡◌, ◌≤◌, ◌<◌, ◌^◌, length};
ghost use Rattle.f77_tree.specs.Line.{item_room, line_room};
ghost use Rattle.f77_meaning.specs.Room.{kind_room, most_room};

use f77_tree::{Exec, ExecKind, Item};

/// How many bytes the longest line may have that the executables write.
#[tactic(auto, using(crate::proofs::Lines::most_next))]
pub fn longest_line(execs: &[Exec]) -> usize
    ensures { result ≡ most_room execs.now }
{
    let mut most = 0;
    for exec in execs {
        most = most.max(room_of(&exec.kind));
    }
    most
}

// Room for what an executable writes.
fn room_of(kind: &ExecKind) -> usize
    ensures { result ≡ kind_room kind.now }
{
    match kind {
        ExecKind::Print { items, next: _ } => room_of_line(items.as_slice()),
        _ => 0,
    }
}

/// How many bytes the line of these items may have, of which there are fewer than 2^32.
#[tactic(auto, using(crate::proofs::Lines::room_next))]
pub fn room_of_line(items: &[Item]) -> usize
    requires { length items.now < 2 ^ 32 }
    ensures { result ≡ line_room items.now }
{
    let mut room: usize = 0;
    for item in items {
        room += room_of_item(item);
    }
    room + 1
}

// Room for an item and the blank before it.
fn room_of_item(item: &Item) -> usize
    ensures room { result ≡ item_room item.now }
    ensures few { result ≤ 2 ^ 32 }
{
    match item {
        Item::Value(_) => 12,
        Item::Chars(text) => text.len() as usize + 1,
    }
}

//! Sets of lines over two words.
ghost use Rattle.std.specs.Prelude.{◌<◌, ◌*◌, All};
ghost use Rattle.class_set.specs.Members.{IsWidth};

use class_set::ClassSet;

fn set_of<const W: usize>(members: &[u32]) -> ClassSet<W>
    requires width { IsWidth W }
    requires below { All (λ n. n < 64 * W) members.now }
{
    let mut set = ClassSet::empty();
    for n in members {
        set = set.with(*n);
    }
    set
}

#[test]
fn members_come_in_order(rt: HostRuntime) {
    let set: ClassSet<2> = set_of(&[64, 3, 127, 63, 3]);
    for (at, next) in [
        (None, Some(3)),
        (Some(2), Some(3)),
        (Some(3), Some(63)),
        (Some(63), Some(64)),
        (Some(126), Some(127)),
        (Some(127), None),
        (Some(128), None),
        (Some(u32::MAX), None),
    ] {
        assert!(rt; set.next_after(at) == next);
    }
}

#[test]
fn sets_join_and_meet(rt: HostRuntime) {
    for (members, others, meet) in [
        (&[0, 65], &[65, 66], true),
        (&[0, 65], &[1, 66], false),
        (&[63, 64], &[64, 127], true),
        (&[63, 64], &[62, 65], false),
    ] {
        let set: ClassSet<2> = set_of(members);
        let other: ClassSet<2> = set_of(others);
        assert!(rt; set.meets(&other) == meet);
        let both = set.union(&other);
        for n in 0..130 {
            assert!(rt; both.holds(n) == (members.contains(&n) || others.contains(&n)));
        }
    }
}

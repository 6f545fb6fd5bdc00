//! Sets of each kind at their edges: the ends of a range, the seam of a join, and its cap.
use kinds::flag::Flag;
use kinds::joined::Joined;
use kinds::mask::Mask;
use kinds::set_kind::SetKind;
use kinds::wide::Wide;

/// Whether these are all members, the least first. Each is taken out once it was seen.
fn has_just<K: SetKind>(set: K, members: &[u16]) -> bool {
    let mut left = set;
    for choice in members {
        if left.least() != Some(*choice) {
            return false;
        }
        left = left.difference(K::range(*choice, *choice));
    }
    left.least().is_none()
}

#[test]
fn a_flag_has_two_choices(rt: HostRuntime) {
    assert_eq!(rt; Flag::capacity(), 2);
    assert!(rt; has_just(Flag::range(0, 65535), &[0, 1]));
    assert!(rt; has_just(Flag::range(1, 0), &[]));
    assert!(rt; has_just(Flag::range(0, 1).meet(Flag::range(1, 7)), &[1]));
}

#[test]
fn a_mask_has_64_choices(rt: HostRuntime) {
    assert_eq!(rt; Mask::capacity(), 64);
    assert!(rt; has_just(Mask::range(62, 65), &[62, 63]));
    assert!(rt; has_just(Mask::range(64, 65535), &[]));
    assert!(rt; has_just(Mask::range(0, 63).difference(Mask::range(1, 62)), &[0, 63]));
}

#[test]
fn a_join_goes_on_behind_its_first_half(rt: HostRuntime) {
    assert_eq!(rt; Joined::<Flag, Mask>::capacity(), 66);
    assert!(rt; has_just(Joined::<Flag, Mask>::range(1, 3), &[1, 2, 3]));
    assert!(rt; has_just(Joined::<Flag, Mask>::range(64, 70), &[64, 65]));
    assert!(rt; has_just(Joined::<Mask, Flag>::range(63, 65535), &[63, 64, 65]));
}

#[test]
fn a_wide_set_has_every_choice(rt: HostRuntime) {
    assert_eq!(rt; Wide::capacity(), 65536);
    assert!(rt; has_just(Wide::range(63, 64), &[63, 64]));
    assert!(rt; has_just(Wide::range(65534, 65535), &[65534, 65535]));
    assert!(rt; has_just(Wide::range(0, 9).meet(Wide::range(9, 700)), &[9]));
}

#[test]
fn a_join_is_capped_where_choices_end(rt: HostRuntime) {
    assert_eq!(rt; Joined::<Flag, Wide>::capacity(), 65536);
    assert!(rt; has_just(Joined::<Flag, Wide>::range(65535, 65535), &[65535]));
    assert!(rt; has_just(Joined::<Wide, Flag>::range(65535, 65535), &[65535]));
}

use crate::Tab;

#[test]
fn a_table_of_keys_and_one_of_controllers(rt: HostRuntime) {
    let mut played = Tab::<128>::new([0; 128]);
    let fresh = Tab::<128>::new([0; 128]);
    assert_eq!(rt; played.len(), 128);
    assert_eq!(rt; played.next_difference(&fresh, 0), None);
    played.set(127, 90);
    assert_eq!(rt; played.get(127), 90);
    assert_eq!(rt; played.get(126), 0);
    assert_eq!(rt; played.next_difference(&fresh, 0), Some(127));
    assert_eq!(rt; fresh.next_difference(&played, 127), Some(127));
    assert_eq!(rt; played.next_difference(&fresh, 128), None);
    played.set(127, 0);
    assert_eq!(rt; played.next_difference(&fresh, 0), None);

    let mut left = Tab::<120>::new([64; 120]);
    left.set(1, 10);
    left.set(119, 127);
    let mut right = left.copy();
    right.set(7, 100);
    assert_eq!(rt; right.get(1), 10);
    assert_eq!(rt; left.next_difference(&right, 0), Some(7));
    assert_eq!(rt; left.next_difference(&right, 8), None);
    assert!(rt; !left.is_equal(&right));
    right.set(119, 0);
    right.set(0, 65);
    assert_eq!(rt; left.count_differences(&right), 3);
    right.set(119, 127);
    right.set(0, 64);
    assert_eq!(rt; left.count_differences(&right), 1);
    left.apply(&right);
    assert!(rt; left.is_equal(&right));
    assert_eq!(rt; left.get(7), 100);
    assert_eq!(rt; left.get(119), 127);
    assert_eq!(rt; left.next_difference(&right, 0), None);
}

#[test]
fn only_the_places_of_the_mask_go_back_to_their_defaults(rt: HostRuntime) {
    let mut table = Tab::<120>::new([64; 120]);
    table.set(0, 1);
    table.set(7, 100);
    table.set(119, 127);
    table.reset(1 | 1 << 64 | 1 << 119 | 1 << 127);
    assert_eq!(rt; table.get(0), 64);
    assert_eq!(rt; table.get(7), 100);
    assert_eq!(rt; table.get(64), 64);
    assert_eq!(rt; table.get(119), 64);
    assert_eq!(rt;
        table.next_difference(&Tab::<120>::new([64; 120]), 0),
        Some(7)
    );
    table.reset(u128::MAX);
    assert_eq!(rt; table.next_difference(&Tab::<120>::new([64; 120]), 0), None);
}

#[test]
fn tables_that_differ_in_one_entry_are_compared_in_a_few_steps(rt: HostRuntime) {
    let fresh = Tab::<128>::new([0; 128]);
    let mut held = fresh.copy();
    held.set(3, 1);
    let mut pressed = held.copy();
    pressed.set(100, 40);
    let found = held.find_difference(&pressed, 0);
    assert_eq!(rt; found.place, Some(100));
    assert_eq!(rt; found.looked, 2);
    let rest = held.find_difference(&pressed, 101);
    assert_eq!(rt; rest.place, None);
    assert_eq!(rt; rest.looked, 0);
}

use fields::{Misfit, Mod31, gf16};
use matrices::{Dependent, apply, eliminate, invert, invert_left, multiply, solve};

// [1 2; 3 4] times (5, 6) is (17, 39), and 39 = 8.
#[test]
fn matrix_times_vector(rt: HostRuntime) {
    let mut y = [0u8, 0];
    assert_eq!(rt; apply(&Mod31, &[1u8, 2, 3, 4], &[5u8, 6], &mut y), Ok(()));
    assert_eq!(rt; y, [17u8, 8]);
    assert_eq!(rt; apply(&Mod31, &[1u8, 2, 3], &[5u8, 6], &mut y), Err(Misfit));
    assert_eq!(rt; y, [17u8, 8]);
}

// [1 2; 3 4] times [5 6; 7 8] is [19 22; 43 50], and 43 = 12, 50 = 19.
#[test]
fn matrix_times_matrix(rt: HostRuntime) {
    let mut y = [0u8; 4];
    assert_eq!(rt;
        multiply(&Mod31, &[1u8, 2, 3, 4], &[5u8, 6, 7, 8], 2, 2, 2, &mut y),
        Ok(())
    );
    assert_eq!(rt; y, [19u8, 22, 12, 19]);
    assert_eq!(rt;
        multiply(&Mod31, &[1u8, 2, 3, 4], &[5u8, 6, 7], 2, 2, 2, &mut y),
        Err(Misfit)
    );
    assert_eq!(rt; y, [19u8, 22, 12, 19]);
}

// 3 x = 6 at x = 2; 0 x = 5 at no x.
#[test]
fn one_equation(rt: HostRuntime) {
    let mut a = [3u8, 6];
    assert_eq!(rt; eliminate(&Mod31, &mut a, 1, 1), Some(Ok(())));
    assert_eq!(rt; a, [1u8, 2]);
    let mut b = [0u8, 5];
    assert_eq!(rt;
        eliminate(&Mod31, &mut b, 1, 1),
        Some(Err(Dependent { column: 1 }))
    );
}

// y = 5 and x = 7: the pivot stands below the corner. The second column of [1 2; 2 4] is twice the first.
#[test]
fn two_equations(rt: HostRuntime) {
    let mut a = [0u8, 1, 5, 1, 0, 7];
    assert_eq!(rt; eliminate(&Mod31, &mut a, 2, 1), Some(Ok(())));
    assert_eq!(rt; a, [1u8, 0, 7, 0, 1, 5]);
    let mut b = [1u8, 2, 1, 2, 4, 1];
    assert_eq!(rt;
        eliminate(&Mod31, &mut b, 2, 1),
        Some(Err(Dependent { column: 2 }))
    );
}

// x + y + z = 6, y + 2 z = 8 and x + z = 4 at (1, 2, 3), as 1 + 2 + 3 = 6, 2 + 6 = 8 and 1 + 3 = 4.
#[test]
fn three_equations(rt: HostRuntime) {
    let mut a = [1u8, 1, 1, 6, 0, 1, 2, 8, 1, 0, 1, 4];
    assert_eq!(rt; eliminate(&Mod31, &mut a, 3, 1), Some(Ok(())));
    assert_eq!(rt; a, [1u8, 0, 0, 1, 0, 1, 0, 2, 0, 0, 1, 3]);
}

// A zero column; a column that is twice the one before it; a zero row, above which (1, 4) and (2, 5) do not depend on each other, as 5 - 8 is not 0.
#[test]
fn dependent_columns(rt: HostRuntime) {
    let mut a = [0u8, 1, 2, 0, 3, 4, 0, 5, 7];
    assert_eq!(rt;
        eliminate(&Mod31, &mut a, 3, 0),
        Some(Err(Dependent { column: 1 }))
    );
    let mut b = [1u8, 2, 3, 2, 4, 5, 3, 6, 8];
    assert_eq!(rt;
        eliminate(&Mod31, &mut b, 3, 0),
        Some(Err(Dependent { column: 2 }))
    );
    let mut c = [1u8, 2, 3, 0, 0, 0, 4, 5, 7];
    assert_eq!(rt;
        eliminate(&Mod31, &mut c, 3, 0),
        Some(Err(Dependent { column: 3 }))
    );
}

// 31 is no code, and three codes are not one row of one and one.
#[test]
fn no_system(rt: HostRuntime) {
    let mut a = [3u8, 31];
    assert_eq!(rt; eliminate(&Mod31, &mut a, 1, 1), None);
    assert_eq!(rt; a, [3u8, 31]);
    let mut b = [3u8, 6, 1];
    assert_eq!(rt; eliminate(&Mod31, &mut b, 1, 1), None);
}

// 2 x + y = 8 and x + 3 y = 9 at (3, 2), as 6 + 2 = 8 and 3 + 6 = 9.
#[test]
fn one_right_side(rt: HostRuntime) {
    let mut a = [2u8, 1, 8, 1, 3, 9];
    assert_eq!(rt; solve(&Mod31, &mut a, 2), Some(Ok(())));
    assert_eq!(rt; a[2], 3);
    assert_eq!(rt; a[5], 2);
}

// The inverse of [1 2; 3 4] is [29 1; 17 15]: 29 + 34 = 63 = 1, 1 + 30 = 0, 87 + 68 = 155 = 0 and 3 + 60 = 63 = 1.
#[test]
fn inverse(rt: HostRuntime) {
    let mut work = [7u8; 9];
    let mut x = [9u8; 4];
    assert_eq!(rt;
        invert(&Mod31, &[1u8, 2, 3, 4], 2, &mut work, &mut x),
        Some(Ok(()))
    );
    assert_eq!(rt; x, [29u8, 1, 17, 15]);
    assert_eq!(rt; work[8], 7);
    assert_eq!(rt;
        invert(&Mod31, &[1u8, 2, 2, 4], 2, &mut work, &mut x),
        Some(Err(Dependent { column: 2 }))
    );
    assert_eq!(rt; x, [29u8, 1, 17, 15]);
    let mut short = [0u8; 7];
    assert_eq!(rt;
        invert(&Mod31, &[1u8, 2, 3, 4], 2, &mut short, &mut x),
        None
    );
}

// The same inverse in place: what stood right of the system does not count. The second column of [1 2; 2 4] is twice the first; 31 is no code.
#[test]
fn inverse_in_place(rt: HostRuntime) {
    let mut x = [9u8; 4];
    let mut a = [1u8, 2, 7, 31, 3, 4, 0, 255];
    assert_eq!(rt; invert_left(&Mod31, &mut a, 2, &mut x), Some(Ok(())));
    assert_eq!(rt; x, [29u8, 1, 17, 15]);
    let mut b = [1u8, 2, 0, 0, 2, 4, 0, 0];
    assert_eq!(rt;
        invert_left(&Mod31, &mut b, 2, &mut x),
        Some(Err(Dependent { column: 2 }))
    );
    assert_eq!(rt; x, [29u8, 1, 17, 15]);
    let mut c = [1u8, 31, 0, 0, 3, 4, 0, 0];
    assert_eq!(rt; invert_left(&Mod31, &mut c, 2, &mut x), None);
    assert_eq!(rt; x, [29u8, 1, 17, 15]);
}

// Seven places are not two rows of four, nor three places two rows of two.
#[test]
fn no_room_for_the_inverse(rt: HostRuntime) {
    let mut x = [9u8; 4];
    let mut a = [1u8, 2, 7, 7, 3, 4, 7];
    assert_eq!(rt; invert_left(&Mod31, &mut a, 2, &mut x), None);
    assert_eq!(rt; a, [1u8, 2, 7, 7, 3, 4, 7]);
    assert_eq!(rt; x, [9u8; 4]);
    let mut y = [9u8; 3];
    let mut b = [1u8, 2, 7, 7, 3, 4, 7, 7];
    assert_eq!(rt; invert_left(&Mod31, &mut b, 2, &mut y), None);
    assert_eq!(rt; b, [1u8, 2, 7, 7, 3, 4, 7, 7]);
}

// GF(16): 4 x = 6 at x = 4, as 4 * 4 = 6. The second column of [4 6; 6 14] is 4 times the first, as 4 * 6 = 14.
// 4 y = 6 and 8 x = 13 at y = 4 and x = 8, as 8 * 8 = 13: the pivot stands below the corner.
#[test]
fn sixteen_codes(rt: HostRuntime) {
    let field = gf16();
    let mut a = [4u8, 6];
    assert_eq!(rt; eliminate(&field, &mut a, 1, 1), Some(Ok(())));
    assert_eq!(rt; a, [1u8, 4]);
    let mut b = [4u8, 6, 6, 14];
    assert_eq!(rt;
        eliminate(&field, &mut b, 2, 0),
        Some(Err(Dependent { column: 2 }))
    );
    let mut c = [0u8, 4, 6, 8, 0, 13];
    assert_eq!(rt; eliminate(&field, &mut c, 2, 1), Some(Ok(())));
    assert_eq!(rt; c, [1u8, 0, 8, 0, 1, 4]);
}

// GF(16): x + 4 y = 7, y + 8 z = 9 and x + 4 y + z = 15 at (1, 4, 8), as 1 + 6 = 7, 4 + 13 = 9 and 7 + 8 = 15.
// A zero column; a third column that is 4 times the first and the second, (4, 0, 6) + (0, 1, 8); a zero row, in which (2, 0, 5) is not 2 times (1, 0, 4), that is (2, 0, 8).
#[test]
fn sixteen_codes_three_equations(rt: HostRuntime) {
    let field = gf16();
    let mut a = [1u8, 4, 0, 7, 0, 1, 8, 9, 1, 4, 1, 15];
    assert_eq!(rt; eliminate(&field, &mut a, 3, 1), Some(Ok(())));
    assert_eq!(rt; a, [1u8, 0, 0, 1, 0, 1, 0, 4, 0, 0, 1, 8]);
    let mut b = [0u8, 1, 2, 0, 3, 4, 0, 5, 7];
    assert_eq!(rt;
        eliminate(&field, &mut b, 3, 0),
        Some(Err(Dependent { column: 1 }))
    );
    let mut c = [1u8, 0, 4, 0, 1, 1, 4, 8, 14];
    assert_eq!(rt;
        eliminate(&field, &mut c, 3, 0),
        Some(Err(Dependent { column: 3 }))
    );
    let mut d = [1u8, 2, 3, 0, 0, 0, 4, 5, 7];
    assert_eq!(rt;
        eliminate(&field, &mut d, 3, 0),
        Some(Err(Dependent { column: 3 }))
    );
}

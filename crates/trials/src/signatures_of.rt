use fields::{Field, Mod31, gf16};
use keys::{LayerFault, Shape};
use maps::{SecretRun, verify};
use matrices::Dependent;
use signing::{finish, start};

// x, y and z: a vinegar variable, and an oil variable of each layer.
const SHAPE: Shape = Shape {
    v1: 1,
    o1: 1,
    o2: 1,
};

// A secret key modulo 31 after its head: S' 2, T1 3, T4 7, T3 4, then the layers x x + x y and x z + y z.
const RUN: [u8; 11] = [2, 3, 7, 4, 1, 1, 0, 0, 1, 0, 1];

// The fault of a layer in its first column.
fn first_column<const L: u8>() -> LayerFault<L> {
    LayerFault {
        fault: Dependent { column: 1 },
    }
}

// What `start` says.
fn started<F: Field>(
    ring: &F,
    run: &[u8],
    vinegar: &[u8],
    place: &mut [u8],
    work: &mut [u8],
) -> Option<Result<(), LayerFault<1>>> {
    start(
        &SecretRun {
            ring,
            run,
            shape: SHAPE,
        },
        vinegar,
        place,
        work,
    )
}

// What `finish` says.
fn ended<F: Field>(
    ring: &F,
    run: &[u8],
    place: &[u8],
    digest: &[u8],
    signature: &mut [u8],
) -> Option<Result<(), LayerFault<2>>> {
    let secret = SecretRun {
        ring,
        run,
        shape: SHAPE,
    };
    finish(&secret, place, digest, signature, &mut [9u8; 7])
}

// With x = 1 the first layer is 1 + y: constant 1, system [1], and its inverse 1. With x = 0 its system is [0].
#[test]
fn starts(rt: HostRuntime) {
    let mut place = [9u8; 3];
    assert_eq!(rt;
        started(&Mod31, &RUN, &[0u8], &mut place, &mut [9u8; 7]),
        Some(Err(first_column()))
    );
    assert_eq!(rt; place, [9u8; 3]);
    assert_eq!(rt;
        started(&Mod31, &RUN, &[1u8], &mut place, &mut [9u8; 7]),
        Some(Ok(()))
    );
    assert_eq!(rt; place, [1u8, 1, 1]);
}

// The digest 8 4: 8 - 2 * 4 = 0 = 1 + y at y = 30, and the second layer's system is [1 + 30].
// The digest 10 4: 10 - 2 * 4 = 2 = 1 + y at y = 1, and 4 = (1 + 1) z at z = 2; then 1 - 3 * 1 + 7 * 2 = 12, 1 - 4 * 2 = 24 and 2.
#[test]
fn ends(rt: HostRuntime) {
    let place = [1u8, 1, 1];
    let mut signature = [9u8; 3];
    assert_eq!(rt;
        ended(&Mod31, &RUN, &place, &[8u8, 4], &mut signature),
        Some(Err(first_column()))
    );
    assert_eq!(rt; signature, [9u8; 3]);
    assert_eq!(rt;
        ended(&Mod31, &RUN, &place, &[10u8, 4], &mut signature),
        Some(Ok(()))
    );
    assert_eq!(rt; signature, [12u8, 24, 2]);
    let public = [30u8, 1, 1, 1, 1, 0, 7, 0, 16, 1, 12, 0, 24, 4, 1, 9];
    let verdict = verify(&Mod31, &public, &[10u8, 4], &signature);
    assert_eq!(rt; verdict.ok(), Some(true));
}

// Two bytes are no vinegar, nor six a workspace; one byte is no digest, nor two a signature.
#[test]
fn other_lengths(rt: HostRuntime) {
    let mut place = [1u8; 3];
    assert_eq!(rt;
        started(&Mod31, &RUN, &[1u8, 1], &mut place, &mut [9u8; 7]),
        None
    );
    assert_eq!(rt;
        started(&Mod31, &RUN, &[1u8], &mut place, &mut [9u8; 6]),
        None
    );
    assert_eq!(rt; ended(&Mod31, &RUN, &place, &[10u8], &mut [9u8; 3]), None);
    assert_eq!(rt;
        ended(&Mod31, &RUN, &place, &[10u8, 4], &mut [9u8; 2]),
        None
    );
}

// GF(16), S' 2, T1 3, T4 9, T3 4 and the same layers; the digest 3 4: 3 + 2 * 4 = 11 = 1 + y at y = 10, and 4 = (1 + 10) z at z = 10.
// Then 1 + 3 * 10 + 9 * 10 = 15, 10 + 4 * 10 = 9 and 10.
#[test]
fn sixteen_codes(rt: HostRuntime) {
    let run = [50u8, 73, 17, 0, 1, 1];
    let mut place = [9u8; 3];
    assert_eq!(rt;
        started(&gf16(), &run, &[1u8], &mut place, &mut [9u8; 7]),
        Some(Ok(()))
    );
    assert_eq!(rt; place, [1u8, 1, 1]);
    let mut signature = [9u8; 2];
    assert_eq!(rt;
        ended(&gf16(), &run, &place, &[67u8], &mut signature),
        Some(Ok(()))
    );
    assert_eq!(rt; signature, [159u8, 10]);
}

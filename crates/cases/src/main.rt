// The document's cases that are not proved on paper: a VM sent to where it is, the most nodes and one more, the least buffer and one byte
// less. Each has a line with what the library says, and of a buffer a line with how many of its bytes stay.
#![tactic(auto)]

mod show;

// Cluster A.
const A: [u8; 40] = [
    1, 0, 0, 0, 40, 0, 3, 0, 2, 0, 0, 0, 0, 4, 0, 100, 0, 0, 4, 0, 100, 0, 0, 4, 0, 100, 0, 0, 3,
    0, 50, 0, 1, 0, 0, 2, 0, 50, 1, 0,
];

// A record of so many nodes, 64 or 65, that have nothing, and no VM.
fn nodes(n: u8) -> [u8; 336] {
    let mut record = [0u8; 336];
    record[0] = 1;
    record[3] = 1;
    record[4] = if n == 64 { 75 } else { 80 };
    record[6] = n;
    record
}

fn main(rt: HostRuntime) {
    show::verdict(
        &rt,
        &A,
        b"\x01\0\0\0\x0b\0\x01\0\x01\0\0",
        "A, VM 0 to node 0",
    );
    show::verdict(
        &rt,
        &A,
        b"\x02\0\0\0\x0c\0\x01\0\x01\0\0\0",
        "A, VM 0 from node 0 to node 0",
    );
    show::both(&rt, &nodes(64)[0..331], "N = 64");
    show::both(&rt, &nodes(65), "N = 65");
    show::answer(&rt, &A, 2562, "A, a buffer of 2,562 bytes");
    show::answer(&rt, &A, 2561, "A, a buffer of 2,561 bytes");
    show::answer(&rt, &A, 0, "A, no buffer");
}

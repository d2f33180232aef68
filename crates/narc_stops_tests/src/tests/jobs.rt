//! Each job on a worked input, where a pull, a push or the room of the sink fails.
use narc_doubles::{
    CAPTURE, CAPTURE_LINES, Ended, PATCHED, REWRITTEN, TEXT, TEXT_CAPTURE, World, end_of,
};
use std::test::Fail;

/// A job on a worked input.
struct Worked {
    words: &'static [&'static str],
    octets: &'static [u8],
    /// The whole output.
    output: &'static [u8],
    /// What the job makes of each front of the input; the last row is that of the whole.
    fronts: &'static [Row],
}

/// What a job makes of a front of its input.
#[derive(Clone, Copy)]
struct Front {
    /// The status and the place, where no more octets come.
    status: u8,
    at: u64,
    /// How many octets of the whole output are written before the end.
    told: usize,
    /// What is written at the end.
    last: &'static [u8],
}

/// How many octets the shortest front has of which this is so, and the fields of that front in their order.
type Row = (usize, u8, u64, usize, &'static [u8]);

impl Worked {
    /// The row of so many octets.
    fn front(&self, octets: usize) -> Front {
        let mut found: Row = (0, 0, 0, 0, b"");
        for row in self.fronts {
            if row.0 <= octets {
                found = *row;
            }
        }
        let (_, status, at, told, last) = found;
        Front {
            status,
            at,
            told,
            last,
        }
    }

    /// What is written of so many octets, before the end.
    fn told(&self, octets: usize) -> &'static [u8] {
        let told = self.front(octets).told.min(self.output.len());
        &self.output[..told]
    }

    /// Whether a run without a fault, on so many octets, ended as it has to.
    fn is_end(&self, octets: usize, ended: &Ended) -> bool {
        let front = self.front(octets);
        let told = self.told(octets);
        let written = ended.written.bytes();
        ended.outcome.status == front.status
            && ended.outcome.at == front.at
            && written.starts_with(told)
            && &written[told.len()..] == front.last
    }
}

/// The jobs that write as they read, or at the end.
const WORKED: [Worked; 5] = [
    Worked {
        words: &["show"],
        octets: &CAPTURE,
        output: CAPTURE_LINES,
        fronts: &[
            (0, 3, 0, 0, b"torn 0\n"),
            (24, 0, 0, 17, b"end 0 0 0 0\n"),
            (25, 3, 24, 17, b"torn 24\n"),
            (82, 0, 0, 108, b"end 1 1 0 0\n"),
            (83, 3, 82, 108, b"torn 82\n"),
            (98, 0, 0, 147, b"end 2 1 1 0\n"),
            (99, 3, 98, 147, b"torn 98\n"),
            (134, 0, 0, 169, b"end 3 1 1 1\n"),
        ],
    },
    Worked {
        words: &["check"],
        octets: &CAPTURE,
        output: COUNTS,
        fronts: &[
            (0, 3, 0, 0, b"packets 0\nsnapped 0\ntorn 0\n"),
            (24, 0, 0, 0, b"packets 0\nsnapped 0\nend 0\n"),
            (25, 3, 24, 0, b"packets 0\nsnapped 0\ntorn 24\n"),
            (82, 0, 0, 0, b"packets 1\nsnapped 0\nend 1\n"),
            (83, 3, 82, 0, b"packets 1\nsnapped 0\ntorn 82\n"),
            (
                98,
                1,
                0,
                0,
                b"packets 1\nsnapped 0\nrefused ethernet.destination 1\nend 2\n",
            ),
            (
                99,
                3,
                98,
                0,
                b"packets 1\nsnapped 0\nrefused ethernet.destination 1\ntorn 98\n",
            ),
            (134, 1, 0, 0, COUNTS),
        ],
    },
    Worked {
        words: &["rewrite"],
        octets: &CAPTURE,
        output: REWRITTEN,
        fronts: &[
            (0, 3, 0, 0, b""),
            (24, 0, 0, 24, b""),
            (25, 3, 24, 24, b""),
            (82, 0, 0, 100, b""),
            (83, 3, 82, 100, b""),
            (98, 0, 0, 116, b""),
            (99, 3, 98, 116, b""),
            (134, 0, 0, 152, b""),
        ],
    },
    Worked {
        words: &["patch", "arp.op=2"],
        octets: &CAPTURE,
        output: PATCHED,
        fronts: &[
            (0, 3, 0, 0, b""),
            (24, 0, 0, 24, b""),
            (25, 3, 24, 24, b""),
            (82, 0, 0, 82, b""),
            (83, 3, 82, 82, b""),
            (98, 0, 0, 98, b""),
            (99, 3, 98, 98, b""),
            (134, 0, 0, 134, b""),
        ],
    },
    Worked {
        words: &["build"],
        octets: TEXT,
        output: TEXT_CAPTURE,
        fronts: &[
            (0, 3, 0, 0, b""),
            (17, 3, 17, 24, b""),
            (108, 3, 108, 100, b""),
            (120, 0, 0, 100, b""),
        ],
    },
];

/// What `check` writes of the worked capture.
const COUNTS: &[u8] = b"packets 1\nsnapped 1\nrefused ethernet.destination 1\nend 3\n";

/// Pieces of one octet, for the longest of these inputs.
const OCTET_BY_OCTET: [usize; 136] = [1; 136];

#[test]
fn each_front_of_an_input_ends_where_it_is_torn(rt: HostRuntime) -> Result<(), Fail> {
    for job in &WORKED {
        for count in 0..job.octets.len() + 1 {
            let ended = end_of(rt.alloc(), job.words, World::of(&job.octets[..count]))?;
            assert!(rt; job.is_end(count, &ended));
        }
    }
    Ok(())
}

#[test]
fn each_pull_that_fails_leaves_what_is_told_of_the_octets_before(
    rt: HostRuntime,
) -> Result<(), Fail> {
    for job in &WORKED {
        // The pull behind the last octet finds the end, and there is none behind it.
        for pull in 1..job.octets.len() + 3 {
            let world = World {
                pieces: &OCTET_BY_OCTET,
                failing_pulls: &[pull as u64],
                ..World::of(job.octets)
            };
            let ended = end_of(rt.alloc(), job.words, world)?;
            let taken = pull - 1;
            let is_right = if taken <= job.octets.len() {
                ended.is(5, taken as u64, job.told(taken))
            } else {
                job.is_end(job.octets.len(), &ended)
            };
            assert!(rt; is_right);
        }
    }
    Ok(())
}

#[test]
fn a_sink_with_too_little_room_holds_a_front_of_the_output(rt: HostRuntime) -> Result<(), Fail> {
    for job in &WORKED {
        for capacity in 0..job.output.len() {
            let world = World {
                capacity,
                ..World::of(job.octets)
            };
            let ended = end_of(rt.alloc(), job.words, world)?;
            assert!(rt; ended.is(6, 0, &job.output[..capacity]));
        }
    }
    Ok(())
}

/// More pushes than any of these jobs makes.
const MOST_PUSHES: u64 = 20;

#[test]
fn each_push_that_fails_leaves_a_front_of_the_output(rt: HostRuntime) -> Result<(), Fail> {
    for job in &WORKED {
        let mut ran_through = false;
        for push in 1..MOST_PUSHES {
            let world = World {
                pieces: &OCTET_BY_OCTET,
                failing_pushes: &[push],
                ..World::of(job.octets)
            };
            let ended = end_of(rt.alloc(), job.words, world)?;
            if ended.outcome.status == 6 {
                let written = ended.written.bytes();
                assert!(rt; !ran_through && ended.outcome.at == 0);
                assert!(rt; job.output.starts_with(written));
            } else {
                // There is no such push, so none of a greater number either.
                assert!(rt; push > 1 && job.is_end(job.octets.len(), &ended));
                ran_through = true;
            }
        }
        assert!(rt; ran_through);
    }
    Ok(())
}

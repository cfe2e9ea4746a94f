//! The worlds that have names, each for what happens in it and what has to follow.

use crate::flow::Reach;
use crate::scripts::{ANY, Rule, Script};
use crate::weather::{Fate, Loss, NEVER, Spell};
use nm_fixtures::{RING, SHIFT, SPLIT};

/// A direction that breaks at its Bye.
const LOSES_BYE: Reach = Reach {
    octets: usize::MAX,
    loses_bye: true,
};

/// A direction that breaks after its Hello.
const HELLO: Reach = Reach {
    octets: 48,
    loses_bye: false,
};

/// A direction that breaks before anything has come.
const NOTHING: Reach = Reach {
    octets: 0,
    loses_bye: false,
};

/// A connection that breaks after the callee's Hello.
const GREETS: Fate = Fate::Made {
    delay: 30,
    there: Reach::WHOLE,
    back: HELLO,
};

/// A connection on which the callee's Bye is lost.
const BYE_TO_CALLER_LOST: Fate = Fate::Made {
    delay: 40,
    there: Reach::WHOLE,
    back: LOSES_BYE,
};

/// All calls between two machines but the first.
const AFTER_FIRST: [usize; 2] = [1, usize::MAX];

/// Each call is dropped on its way.
const EACH: Rule = Rule {
    machines: [ANY, ANY],
    numbers: [0, usize::MAX],
    until: u64::MAX,
    fate: Fate::Hangs,
};

/// Two machines; the first calls the second, and nothing goes wrong.
const PAIR: Script = Script {
    name: "pair",
    network: SPLIT,
    replicas: 1,
    delay: 40,
    rules: &[],
    outage: [0, 0],
    shortage: NEVER,
    loss: None,
    ends: [0, 1_500],
    stalls: false,
    calls: 2,
};

/// The worlds with names. If a partition has two replicas, machines 0 and 1 call machines 2 and 3.
pub(crate) const SCRIPTS: &[Script] = &[
    // A forwarder takes what is written and passes nothing on, for 36 seconds.
    Script {
        name: "held",
        delay: 400,
        rules: &[Rule {
            until: 36_000,
            fate: Fate::Unread,
            ..EACH
        }],
        ends: [36_000, 56_000],
        calls: 10,
        ..PAIR
    },
    // The machine that is called vanishes without a word: nothing comes from it for five seconds.
    Script {
        name: "vanished",
        delay: 400,
        loss: Some(Loss {
            machine: 1,
            at: 1_500,
            back_at: 2_000,
            is_silent: true,
            may_be_done: false,
        }),
        ends: [2_000, 22_000],
        calls: 5,
        ..PAIR
    },
    // The link is down: nothing arrives, and what was sent is sent again later and later.
    Script {
        name: "down",
        delay: 400,
        outage: [400, 54_500],
        ends: [54_500, 74_500],
        calls: 16,
        ..PAIR
    },
    // Two callers come at once. Each link ends twice, by two calls, and nobody stays for long.
    Script {
        name: "calm",
        replicas: 2,
        calls: 8,
        ..PAIR
    },
    // The first call is dropped on its way. There is another after five seconds.
    Script {
        name: "held-once",
        rules: &[Rule {
            numbers: [0, 1],
            ..EACH
        }],
        ends: [5_000, 7_000],
        calls: 3,
        ..PAIR
    },
    // Each call is accepted and cut: there is one each 50 ms at most.
    Script {
        name: "cut-for-long",
        rules: &[Rule {
            until: 4_000,
            fate: Fate::Cut,
            ..EACH
        }],
        ends: [4_000, 6_000],
        calls: 84,
        ..PAIR
    },
    // Each connection breaks once the callee has sent Hello: 60 ms after its call, and then the
    // caller rests.
    Script {
        name: "cut-after-the-greeting",
        delay: 30,
        rules: &[Rule {
            until: 4_000,
            fate: GREETS,
            ..EACH
        }],
        ends: [4_000, 6_000],
        calls: 44,
        ..PAIR
    },
    // The same for ever: nobody learns anything, and a minute later both are stalled.
    Script {
        name: "never-more-than-a-greeting",
        delay: 30,
        rules: &[Rule {
            fate: GREETS,
            ..EACH
        }],
        ends: [60_000, 62_000],
        stalls: true,
        calls: 700,
        ..PAIR
    },
    // A caller has much to do with one peer while it cannot call another: each rests for its time.
    Script {
        name: "refused-while-another-is-cut",
        replicas: 2,
        rules: &[
            Rule {
                machines: [ANY, 2],
                until: 4_000,
                fate: Fate::Refused,
                ..EACH
            },
            Rule {
                machines: [ANY, 3],
                until: 4_000,
                fate: Fate::Made {
                    delay: 10,
                    there: Reach::WHOLE,
                    back: HELLO,
                },
                ..EACH
            },
        ],
        ends: [4_000, 6_500],
        calls: 256,
        ..PAIR
    },
    // Calls to one replica of a partition are dropped on their way. All that call it stay for it,
    // and call the other one once a second.
    Script {
        name: "peer-reached-late",
        replicas: 2,
        rules: &[Rule {
            machines: [ANY, 3],
            until: 12_000,
            ..EACH
        }],
        ends: [0, 18_000],
        calls: 46,
        ..PAIR
    },
    // One of two callers is late, and its first connections break at the Bye to it. All that it
    // calls stay for it, and then for its next call.
    Script {
        name: "caller-comes-late",
        replicas: 2,
        rules: &[
            Rule {
                machines: [1, ANY],
                numbers: [0, 1],
                ..EACH
            },
            Rule {
                machines: [1, ANY],
                numbers: [1, 2],
                fate: BYE_TO_CALLER_LOST,
                ..EACH
            },
        ],
        ends: [0, 8_500],
        calls: 36,
        ..PAIR
    },
    // The caller's Bye is lost: it calls once more, and the callee stays for that.
    Script {
        name: "bye-of-caller-lost",
        delay: 400,
        rules: &[Rule {
            numbers: [0, 1],
            fate: Fate::Made {
                delay: 400,
                there: LOSES_BYE,
                back: Reach::WHOLE,
            },
            ..EACH
        }],
        ends: [0, 9_000],
        calls: 2,
        ..PAIR
    },
    // The callee's Bye is lost: it stays for the caller, who calls at once.
    Script {
        name: "bye-to-caller-lost",
        delay: 400,
        rules: &[Rule {
            numbers: [0, 1],
            fate: Fate::Made {
                delay: 400,
                there: Reach::WHOLE,
                back: LOSES_BYE,
            },
            ..EACH
        }],
        ends: [0, 8_000],
        calls: 3,
        ..PAIR
    },
    // It does so twice in a row, and stays a fifth of a second longer.
    Script {
        name: "bye-to-caller-lost-twice",
        rules: &[Rule {
            numbers: [0, 2],
            fate: BYE_TO_CALLER_LOST,
            ..EACH
        }],
        ends: [0, 3_000],
        calls: 4,
        ..PAIR
    },
    // The same, but the caller comes back later than the callee knows that its end is sure.
    Script {
        name: "bye-to-caller-lost-twice-and-slow",
        delay: 150,
        rules: &[
            Rule {
                numbers: [0, 1],
                fate: Fate::Made {
                    delay: 150,
                    there: Reach::WHOLE,
                    back: LOSES_BYE,
                },
                ..EACH
            },
            Rule {
                numbers: [1, 2],
                fate: Fate::Made {
                    delay: 160,
                    there: Reach::WHOLE,
                    back: LOSES_BYE,
                },
                ..EACH
            },
        ],
        ends: [0, 6_000],
        calls: 4,
        ..PAIR
    },
    // The caller comes back just before the callee would leave, and is served to its end.
    Script {
        name: "bye-to-caller-lost-and-slow",
        delay: 900,
        rules: &[Rule {
            numbers: [0, 1],
            fate: Fate::Made {
                delay: 900,
                there: Reach::WHOLE,
                back: LOSES_BYE,
            },
            ..EACH
        }],
        ends: [0, 20_000],
        calls: 3,
        ..PAIR
    },
    // After the caller's Bye was lost its next call is cut: it is no sign that nobody is there.
    Script {
        name: "cut-after-the-end",
        rules: &[
            Rule {
                numbers: [0, 1],
                fate: Fate::Made {
                    delay: 40,
                    there: LOSES_BYE,
                    back: Reach::WHOLE,
                },
                ..EACH
            },
            Rule {
                numbers: [1, 2],
                fate: Fate::Cut,
                ..EACH
            },
        ],
        ends: [0, 4_000],
        calls: 3,
        ..PAIR
    },
    // Nobody answers the call after the end: both stay two seconds, and no longer.
    Script {
        name: "held-after-the-end",
        rules: &[Rule {
            numbers: AFTER_FIRST,
            ..EACH
        }],
        ends: [2_000, 3_500],
        calls: 2,
        ..PAIR
    },
    // A caller vanishes without a word. Its next life's connection replaces that of its first.
    Script {
        name: "caller-begun-anew",
        delay: 400,
        loss: Some(Loss {
            machine: 0,
            at: 600,
            back_at: 1_100,
            is_silent: true,
            may_be_done: false,
        }),
        ends: [1_100, 8_000],
        calls: 3,
        ..PAIR
    },
    // Octets of the first life arrive with the Hello of the second. Of these connections the later
    // has the lower key, since a stranger had that; no call comes after its end.
    Script {
        name: "caller-begun-anew-with-octets-on-their-way",
        rules: &[
            Rule {
                numbers: [0, 1],
                fate: Fate::Made {
                    delay: 600,
                    there: NOTHING,
                    back: Reach::WHOLE,
                },
                ..EACH
            },
            Rule {
                numbers: [1, 2],
                fate: Fate::Made {
                    delay: 400,
                    there: Reach::WHOLE,
                    back: Reach::WHOLE,
                },
                ..EACH
            },
            Rule {
                numbers: [3, usize::MAX],
                ..EACH
            },
        ],
        loss: Some(Loss {
            machine: 0,
            at: 1_050,
            back_at: 1_360,
            is_silent: true,
            may_be_done: false,
        }),
        ends: [1_360, 6_000],
        calls: 4,
        ..PAIR
    },
    // A caller whose link has ended once vanishes and comes back while the callee stays for it.
    Script {
        name: "caller-begun-anew-after-its-end",
        delay: 150,
        rules: &[Rule {
            numbers: [1, 2],
            ..EACH
        }],
        loss: Some(Loss {
            machine: 0,
            at: 2_200,
            back_at: 2_700,
            is_silent: true,
            may_be_done: true,
        }),
        ends: [2_700, 8_000],
        calls: 44,
        ..PAIR
    },
    // A peer is begun again after its link has surely ended: a caller that waits for others finds
    // it so within a second, and sends it all.
    Script {
        name: "peer-begun-anew-after-its-end",
        replicas: 2,
        rules: &[
            Rule {
                machines: [ANY, 3],
                until: 12_000,
                ..EACH
            },
            Rule {
                machines: [1, 2],
                until: 6_000,
                ..EACH
            },
        ],
        loss: Some(Loss {
            machine: 2,
            at: 3_000,
            back_at: 3_500,
            is_silent: false,
            may_be_done: true,
        }),
        ends: [0, 18_000],
        calls: 46,
        ..PAIR
    },
    // The same, but the peer has to wait for another, too: nothing comes from it for long, and its
    // caller accepts that.
    Script {
        name: "peer-begun-anew-waits",
        network: RING,
        rules: &[
            Rule {
                machines: [0, 1],
                numbers: [0, 1],
                fate: BYE_TO_CALLER_LOST,
                ..EACH
            },
            Rule {
                machines: [1, 2],
                numbers: [0, 1],
                fate: BYE_TO_CALLER_LOST,
                ..EACH
            },
            Rule {
                machines: [0, 1],
                until: 14_000,
                ..EACH
            },
            Rule {
                machines: [1, 2],
                until: 14_000,
                ..EACH
            },
        ],
        loss: Some(Loss {
            machine: 2,
            at: 1_500,
            back_at: 1_510,
            is_silent: false,
            may_be_done: true,
        }),
        ends: [14_000, 21_000],
        calls: 18,
        ..PAIR
    },
    // A callee serves a slow caller after its Bye to it was lost; another one calls meanwhile,
    // again and again.
    Script {
        name: "served-while-another-calls",
        replicas: 2,
        rules: &[
            Rule {
                machines: [0, 2],
                numbers: [0, 1],
                fate: BYE_TO_CALLER_LOST,
                ..EACH
            },
            Rule {
                machines: [0, 2],
                numbers: [1, 2],
                fate: Fate::Made {
                    delay: 1_000,
                    there: Reach::WHOLE,
                    back: Reach::WHOLE,
                },
                ..EACH
            },
            Rule {
                machines: [1, 3],
                until: 3_500,
                ..EACH
            },
        ],
        ends: [2_650, 8_500],
        calls: 24,
        ..PAIR
    },
    // Each octet is on its way for 1.5 seconds: a connection lasts for long, and is not silent.
    Script {
        name: "slow",
        network: SHIFT,
        delay: 1_500,
        ends: [0, 60_000],
        calls: 2,
        ..PAIR
    },
    // The system has no descriptor for more than a second, while all are connected.
    Script {
        name: "short-while-connected",
        delay: 400,
        shortage: Spell {
            machine: 1,
            times: [500, 1_900],
        },
        ends: [0, 9_000],
        calls: 2,
        ..PAIR
    },
];

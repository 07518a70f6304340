// Plays a login between both ends in memory, and shows each packet.
#![tactic(auto)]

use arguments::Unplayed;
use std::env::Env;
use talk::Login;

mod arguments;
mod talk;
mod words;

// RFC 2759, section 9.2.
const CHALLENGE: [u8; 16] = [
    0x5B, 0x5D, 0x7C, 0x7D, 0x7B, 0x3F, 0x2F, 0x3E, 0x3C, 0x2C, 0x60, 0x21, 0x32, 0x26, 0x26, 0x28,
];

const PEER_CHALLENGE: [u8; 16] = [
    0x21, 0x40, 0x23, 0x24, 0x25, 0x5E, 0x26, 0x2A, 0x28, 0x29, 0x5F, 0x2B, 0x3A, 0x33, 0x7C, 0x7E,
];

fn example() {
    console::say(
        b"The example of RFC 2759, section 9.2: name \"User\", password \"clientPass\".\n",
    );
    console::say(
        b"It publishes the NT-Response 82309ECD8D708B5EA08FAA3981CD83544233114A3D85D6DF\n",
    );
    console::say(b"and the authenticator string S=407A5589115FD0D6209F510FE9C04566932CDA56.\n");
    console::say(b"`login help` says how to play other logins.\n\n");
    let hash = roster::secret_of(b"clientPass").unwrap_or([0; 16]);
    let mut table = [0u8; 278];
    let n = accounts::append_account(&mut table, 0, 0, hash, b"User").unwrap_or(0);
    talk::play(&Login {
        table: octets::part(&table, 0, n),
        name: b"User",
        text: &[],
        hash,
        challenge: CHALLENGE,
        random: PEER_CHALLENGE,
        retries: 0,
    });
}

fn help() {
    console::say(
        b"login
    Plays the example of RFC 2759.

login TABLE NAME PASSWORD [RETRIES] [text=TEXT]
login TABLE NAME PASSWORD CHALLENGE PEER-CHALLENGE [RETRIES] [text=TEXT]
    Plays a login of NAME with PASSWORD, between a peer and a server in memory, and
    shows each packet. Nothing is sent.

    TABLE           the file of the server's account table; `table` makes one
    NAME            1 to 256 octets; the user is what follows a backslash, if any
    PASSWORD        UTF-8, up to 256 UTF-16 units, or hash= and 32 hex digits; on a
                    shared machine others can read it in the list of processes
    CHALLENGE       the server's, 32 hex digits; else the published one
    PEER-CHALLENGE  the peer's, 32 hex digits; else the published one
    RETRIES         how often the server allows a retry, 0 to 10; else 0
    TEXT            up to 960 octets: put after M= in each Failure Request, as servers
                    do that say why; the peer tells it to whoever looks at the panel

    At a retry the peer gives the same name and password again. Each further
    challenge is the one before with its last octet counted up. Challenges that can
    be foreseen are for show only: in use each one has to be random.

    The last line says ok where the peer is logged in, and else failed: and why; what
    is wrong is said on standard error. `tools/login` gives that as an exit status.
",
    );
    console::ended_well();
}

// One argument: a word for help.
fn one_word<R: Env>(rt: &R) {
    let mut word = [0u8; 8];
    let n = console::arg(rt, 1, &mut word).unwrap_or(0);
    match &word[..n] {
        b"help" | b"--help" | b"-h" => help(),
        _ => arguments::complain(Unplayed::Argument(b"NAME and PASSWORD are missing")),
    }
}

fn main(rt: HostRuntime) {
    match console::arg_count(&rt) {
        0 | 1 => example(),
        2 => one_word(&rt),
        count => {
            if let Err(why) = arguments::play(&rt, count) {
                arguments::complain(why);
            }
        }
    }
}

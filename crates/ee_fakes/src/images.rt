//! The texts that several modules read.

/// Just formatted: one page in each set, six words in a page.
pub const FORMATTED: &[u8] = b"ee 1 6
0 aaaaaaaa00000001 aaaaaaaaaaaaaaaa - - - -
0 - - - - - -
";

/// After one move.
pub const ONE_MOVE: &[u8] = b"ee 1 6
0 aaaaaaaa00000001 aaaaaaaaaaaaaaaa - aaaaaaaaaaaaaaaa 0000000a00000001 0000000b00000001
0 aaaaaaaa00000002 aaaaaaaaaaaaaaaa - - 0000000c00000001 -
";

/// After one move, cleaned.
pub const CLEANED: &[u8] = b"ee 1 6
1 - - - - - -
0 aaaaaaaa00000002 aaaaaaaaaaaaaaaa - - 0000000c00000001 -
";

/// After two moves: 13 at address 1, 5 at address 2, and no slot free.
pub const TWO_MOVES: &[u8] = b"ee 1 6
1 aaaaaaaa00000003 aaaaaaaaaaaaaaaa - - 0000000d00000001 0000000500000002
0 aaaaaaaa00000002 aaaaaaaaaaaaaaaa - aaaaaaaaaaaaaaaa 0000000c00000001 0000000500000002
";

/// And then address 2 forgotten.
pub const TIDIED: &[u8] = b"ee 1 6
1 aaaaaaaa00000003 aaaaaaaaaaaaaaaa - aaaaaaaaaaaaaaaa 0000000d00000001 0000000500000002
1 aaaaaaaa00000004 aaaaaaaaaaaaaaaa - - 0000000d00000001 -
";

/// The script of two moves.
pub const SCRIPT: &[u8] = b"w 1 10\nw 1 11\nw 1 12\nw 2 5\nw 1 13\n";

/// Its report.
pub const REPORT: &[u8] = b"ok
ok
moved
ok
moved
end fill 2 room 0 live 2 pending 1 transfers 2
slots 2 fill 0 live 0 writes 5
to 3 from 0
to 5 from 1
transfers 2
";

/// Its tight certificate.
pub const CERTIFICATE: &[u8] =
    b"slots 2 fill 0 live 0 writes 5\nto 3 from 0\nto 5 from 1\ntransfers 2\n";

/// A schema, out of whose range address 1 is after two moves.
pub const VOLUME: &[u8] = b"[volume]\naddress = 1\nmin = 0\nmax = 10\ndefault = 5\n";

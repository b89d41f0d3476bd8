//! The bytes that were sent on connections, those of a connection together.

ghost use Rattle.std.specs.Prelude.{◌≡◌, ◌≤◌, ◌<◌, ◌+◌, ◌^◌, ◌==◌, ℕ, vec_len, vec_capacity, length, ◌++◌, [], MatchOption, if◌then◌else◌};
ghost use Rattle.hy_base.specs.Pieces.{Keeps, total, bytes_in, LacksRun, IsRun, with_piece};

/// So many bytes of a connection.
#[derive(Clone, Copy, Debug, Drop)]
pub(crate) struct Run {
    conn: u32,
    size: usize,
}

/// The bytes of each connection, in the order in which the connections were first sent on.
#[derive(Debug, Drop)]
pub(crate) struct Pieces {
    pub(crate) bytes: Vec<u8>,
    pub(crate) runs: Vec<Run>,
}

impl Pieces {
    /// Adds the piece to the bytes of the connection. It takes no memory.
    pub(crate) fn add(&mut self, conn: u32, piece: &[u8])
        requires bytes { vec_len self.old.bytes + length piece.now ≤ vec_capacity self.old.bytes }
        requires runs { vec_len self.old.runs < vec_capacity self.old.runs }
        requires total { total self.old.runs.items ≡ length self.old.bytes.items }
        ensures bytes_in { (c : ℕ) → bytes_in self.new.runs.items self.new.bytes.items c
            ≡ bytes_in self.old.runs.items self.old.bytes.items c
            ++ (if conn == c then piece.now else []) }
        ensures size { length self.new.bytes.items
            ≡ length self.old.bytes.items + length piece.now }
        ensures keeps { Keeps self.old self.new }
    {
        let (index, start) = self.place(conn);
        let end = start + self.runs[index].size;
        insert(&mut self.bytes, end, piece);
        self.runs[index].size += piece.len();
    }

    /// The place of the connection's run, which is new where there was none.
    fn place(&mut self, conn: u32) -> (usize, usize)
        requires runs { vec_len self.old.runs < vec_capacity self.old.runs }
        requires total { total self.old.runs.items ≡ length self.old.bytes.items }
        ensures run { IsRun self.new.runs.items conn result }
        ensures same { (c : ℕ) → bytes_in self.new.runs.items self.old.bytes.items c
            ≡ bytes_in self.old.runs.items self.old.bytes.items c }
        ensures bytes { self.new.bytes ≡ self.old.bytes }
        ensures keeps { Keeps self.old self.new }
    {
        match find(&self.runs, conn) {
            Some(place) => place,
            None => {
                let place = (self.runs.len(), self.bytes.len());
                self.runs.push_reserved(Run { conn, size: 0 });
                place
            }
        }
    }

    /// The bytes of the connection.
    pub(crate) fn of(&self, conn: u32) -> &[u8]
        requires { total self.now.runs.items ≡ length self.now.bytes.items }
        ensures { result.now ≡ bytes_in self.now.runs.items self.now.bytes.items conn }
    {
        match find(&self.runs, conn) {
            Some((index, start)) => &self.bytes[start..start + self.runs[index].size],
            None => &[],
        }
    }
}

/// Puts the piece at this place. It takes no memory.
fn insert(bytes: &mut Vec<u8>, at: usize, piece: &[u8])
    requires within { at ≤ length bytes.old.items }
    requires room { vec_len bytes.old + length piece.now ≤ vec_capacity bytes.old }
    ensures items { bytes.new.items ≡ with_piece at piece.now bytes.old.items }
    ensures room { vec_capacity bytes.old ≤ vec_capacity bytes.new }
{
    let behind = bytes.len() - at;
    bytes.rotate_left(at);
    bytes.extend_from_slice(piece).unwrap();
    bytes.rotate_left(behind);
}

/// The places of the connection's run and of its first byte.
fn find(runs: &[Run], conn: u32) -> Option<(usize, usize)>
    requires { total runs.now < 2 ^ 64 }
    ensures { MatchOption result (LacksRun conn runs.now) (IsRun runs.now conn) }
{
    let mut start = 0;
    for (index, run) in runs.iter().enumerate() {
        if run.conn == conn {
            return Some((index, start));
        }
        start += run.size;
    }
    None
}

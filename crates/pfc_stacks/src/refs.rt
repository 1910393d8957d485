//! Addresses of cells.
ghost use Rattle.std.specs.Prelude.{◌≡◌, ◌<◌, ◌^◌};
ghost use Rattle.pfc_stacks.specs.Refs.{number_of};
ghost use Rattle.pfc_stacks.specs.declared.refs.Ref.{Ref};

/// The address of a cell: the process that it is of, and its place among the cells of the process, both from 0.
#[derive(Clone, Copy, Debug, PartialEq, Eq)]
pub struct Ref {
    pub process: u32,
    pub cell: u32,
}

impl Ref {
    ghost use Rattle.pfc_stacks.specs.Refs.{word_of, ref_of, IsAddress};

    /// The word that holds the address. There are below 1,024 processes.
    pub fn word(self) -> i64
        requires { self.process < 1024 }
        ensures word { result ≡ word_of self }
        ensures address { IsAddress result }
    {
        i64::from(self.process) * 4_294_967_296 + i64::from(self.cell)
    }

    /// The address that a word holds.
    pub fn of(v: i64) -> Ref
        ensures of { result ≡ ref_of v }
        ensures back { (r : Ref) → r.cell < 2 ^ 32 → word_of r ≡ v → result ≡ r }
    {
        let n = v.unsigned_abs();
        Ref {
            process: (n / 4_294_967_296) as u32,
            cell: (n % 4_294_967_296) as u32,
        }
    }
}

/// The number of 32 bits that a word holds.
pub(crate) fn number_in(w: i64) -> u32
    ensures { result ≡ number_of w }
{
    (w.unsigned_abs() % 4_294_967_296) as u32
}

ghost use Rattle.std.specs.Prelude.{◌≡◌, ◌*◌, ◌≤◌, length};

// What the rounds work in, a place for each switch in every row: the round that last raised it (0: none did), the
// position of the link that it was raised for, and a mark. The rows are lent, since the library has no memory of its own;
// the Network, which is only read, stands beside them. Other rows than a search's, and other meanings: no struct of both.
#[derive(Drop)]
pub(crate) struct Rows<'r> {
    pub stamps: &'r mut [u32],
    pub preds: &'r mut [u32],
    pub marks: &'r mut [u32],
    pub n: usize,
    ghost sizes: { (length stamps.now ≡ n) × (length preds.now ≡ n) × (n ≤ length marks.now) },
}

impl<'r> Rows<'r> {
    // Over the row of numbers as it is lent, four to a switch.
    pub(crate) fn new(n: usize, numbers: &'r mut [u32]) -> Rows<'r>
        requires { 4 * n ≤ length numbers.old }
        ensures { result.n ≡ n }
    {
        let (stamps, others) = numbers.split_at_mut(n);
        let (preds, marks) = others.split_at_mut(n);
        Rows {
            stamps,
            preds,
            marks,
            n,
        }
    }
}

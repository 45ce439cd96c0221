ghost use Rattle.std.specs.Prelude.{◌≡◌, ◌*◌, ◌≤◌, length};

// What a search works in, a place for each switch in every row: the label of its group, the word of its step up to its
// parent, a stack of switches, and their marks. The rows are lent, since the library has no memory of its own.
//
// The Network stands beside them: it is only read, and a struct of both would have to say after each call that it holds the
// same links still. A function that writes some of the rows takes these alone, which tells its caller that the others stay.
#[derive(Drop)]
pub(crate) struct Rows<'r> {
    pub labels: &'r mut [u32],
    pub up: &'r mut [u32],
    pub stack: &'r mut [u32],
    pub marks: &'r mut [u32],
    pub n: usize,
    ghost sizes: { (length labels.now ≡ n) × (length up.now ≡ n) × (n ≤ length stack.now) × (n ≤ length marks.now) },
}

impl<'r> Rows<'r> {
    // Over the row of numbers as it is lent, four to a switch.
    pub(crate) fn new(n: usize, numbers: &'r mut [u32]) -> Rows<'r>
        requires { 4 * n ≤ length numbers.old }
        ensures { result.n ≡ n }
    {
        let (labels, others) = numbers.split_at_mut(n);
        let (up, spare) = others.split_at_mut(n);
        let (stack, marks) = spare.split_at_mut(n);
        Rows {
            labels,
            up,
            stack,
            marks,
            n,
        }
    }
}

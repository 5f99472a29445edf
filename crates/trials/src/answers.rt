use directory::directory::Directory;
use std::test::Fail;
use values::refusal::Refusal;

// The number of the refusal that is answered, or 0: the tables hold the numbers that users see.
pub(crate) fn refused<T: Drop>(answer: Result<T, Refusal>) -> u8 {
    answer.err().map_or(0, |refusal| refusal.number())
}

// The four participants of the worked cases.
pub(crate) fn four() -> Result<Directory, Fail> {
    Directory::new(&[11, 22, 33, 44]).map_err(|_| Fail::new("four keys are refused"))
}

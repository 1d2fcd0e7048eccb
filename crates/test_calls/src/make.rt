//! Makes a message, headers or a policy, and passes it to a call.
use std::alloc::Global;
use std::test::Fail;

/// A value from which something is made, as `By` selects.
pub trait Make<By> {
    /// The result.
    type Made;

    /// Makes the result.
    fn make(&self, alloc: Global, by: By, case: &str) -> Result<Self::Made, Fail>;
}

/// Makes something from a value, if there is one. Only this function owns values of large types,
/// which keeps the proofs of its callers short.
pub fn make_with<By: Copy, T: Make<By> + Drop>(
    alloc: Global,
    value: Result<T, Fail>,
    by: By,
    case: &str,
) -> Result<T::Made, Fail> {
    match value {
        Ok(value) => value.make(alloc, by, case),
        Err(e) => Err(e),
    }
}

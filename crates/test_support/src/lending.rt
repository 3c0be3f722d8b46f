//! Values that are lent.

/// Lends a value to a body, drops the value, and returns what the body returned. A function that owns a machine or a
/// log pays in each of its comparisons for having to drop it, and one that borrows it does not.
pub fn lend<T: Drop, A, F: FnOnce(&mut T) -> A>(mut value: T, body: F) -> A
    requires { F.IsAlwaysCallable body }
{
    let answer = body(&mut value);
    drop(value);
    answer
}

/// A value after a body has changed it, or the body's error.
///
/// # Errors
///
/// That of the body.
pub fn prepared<T: Drop, E, F: FnOnce(&mut T) -> Result<(), E>>(
    mut value: T,
    body: F,
) -> Result<T, E>
    requires { F.IsAlwaysCallable body }
{
    match body(&mut value) {
        Ok(()) => Ok(value),
        Err(error) => {
            drop(value);
            Err(error)
        }
    }
}

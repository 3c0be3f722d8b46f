//! A comparison whose message is proved once in each crate of tests, and not once in each comparison.

/// Fails the test if two values are not equal, and prints both and their case: the third argument, or the expression
/// of the first. The crate of tests has a function `same` in its module `tests`, which prints them by `assert_eq!`.
#[macro_export]
macro_rules! assert_same {
    ($rt:ident; $found:expr, $wanted:expr) => {
        $crate::assert_same!($rt; $found, $wanted, stringify!($found))
    };
    ($rt:ident; $found:expr, $wanted:expr, $at:expr) => {
        crate::tests::same(&$rt, &$found, &$wanted, &$at)
    };
}

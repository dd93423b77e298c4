//! Steps of a test that have names.

/// The name of the first step that is wrong. Each row says whether its step is right.
pub fn first_wrong_name(steps: &[(&'static str, bool)]) -> Option<&'static str> {
    let mut wrong = None;
    for (name, is_right) in steps {
        wrong = wrong.or((!*is_right).then_some(*name));
    }
    wrong
}

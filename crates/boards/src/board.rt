use rules::Hall;

/// A board with its rule. Its fields are its own: only its calls change them.
#[derive(Drop)]
pub struct Board<K, R> {
    pub(crate) hall: Hall<K>,
    pub(crate) rule: R,
}

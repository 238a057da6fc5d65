// What a mount has learnt.
use ct_cache::Caches;

/// What a mount has learnt of where pages and names are, where it has caches.
#[derive(Drop)]
pub struct Learnt {
    pub caches: Option<Caches>,
}

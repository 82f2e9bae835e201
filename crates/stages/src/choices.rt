// The cases that a tender's terms choose.
use super::kind::Kind;
use super::method::Method;
use super::shortfall::Shortfall;

#[derive(Clone, Copy, PartialEq, Eq, Debug)]
pub(crate) struct Choices {
    pub(crate) kind: Kind,
    pub(crate) method: Method,
    pub(crate) shortfall: Shortfall,
}

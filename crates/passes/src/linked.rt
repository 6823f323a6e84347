// Legs with their links.
ghost use Rattle.passes.specs.Links.{Orderly, Linked, orderly_prop, linked_prop};

use crate::legs::Leg;
use crate::links::Links;

// Legs that can be linked, and their links.
#[derive(Clone, Copy)]
pub struct LinkedLegs<'a> {
    pub legs: &'a [Leg],
    pub links: &'a Links,
    pub ghost orderly: { Orderly legs.now } by { orderly_prop legs.now },
    pub ghost linked: { Linked legs.now 0 links.now.head links.now.next links.now.follow } by { linked_prop legs.now 0 links.now.head links.now.next links.now.follow },
}

// Lists inside a constraint. `rest` is what is left of the constraint's part of the record, so no reader can look past its stated end.
#![tactic(auto, unfolding(crate::specs::Inner::listed))]

ghost use Rattle.std.specs.Prelude.{◌≡◌};
ghost use Rattle.records.specs.Bytes.{byte_at, be16};
ghost use Rattle.records.specs.Room.{list_ok};
ghost use Rattle.records.specs.Inner.{listed, shown};

use crate::bytes::front_count;

// Whether the elements rise strictly and are all below the limit.
pub fn rising(list: &[u8], limit: usize) -> bool
    ensures { result ≡ list_ok limit list.now }
{
    let mut low: usize = 0;
    for element in list {
        let x = usize::from(*element);
        if x < low || limit <= x {
            return false;
        }
        low = x + 1;
    }
    true
}

// The list of n elements at the front, and what is behind it, if it is there and in order and range.
fn list_from(rest: &[u8], n: usize, limit: usize) -> Option<(&[u8], &[u8])>
    ensures { shown result ≡ listed limit rest.now 0 n }
{
    let (list, behind) = rest.split_at_checked(n)?;
    rising(list, limit).then_some((list, behind))
}

// A VM list: a count of two bytes, then the VMs. It and a node list differ in the count's width; what they share is `list_from`.
#[tactic(auto, unfolding(crate::specs::Bytes::be16, crate::specs::Inner::listed))]
pub fn vm_list(rest: &[u8], limit: usize) -> Option<(&[u8], &[u8])>
    ensures { shown result ≡ listed limit rest.now 2 (be16 rest.now 0) }
{
    let (count, rest) = front_count(rest)?;
    list_from(rest, count, limit)
}

// A node list: a count of one byte, then the nodes.
pub fn node_list(rest: &[u8], limit: usize) -> Option<(&[u8], &[u8])>
    ensures { shown result ≡ listed limit rest.now 1 (byte_at rest.now 0) }
{
    let (count, rest) = rest.split_first()?;
    list_from(rest, usize::from(*count), limit)
}

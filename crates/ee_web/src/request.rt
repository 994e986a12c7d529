//! What a caller asks of a store, before and after its address was judged.
ghost use Rattle.std.specs.Prelude.{SomeIff};
ghost use Rattle.ee_web.specs.Exports.{IsProperRequest};

use ee_codec::Address;

/// What is asked of a store. An address is a number as it was passed, or one that is proper.
///
/// Source: ours.
#[derive(Drop)]
pub enum Request<A> {
    /// To be made, with nothing in it.
    Format,
    /// To be opened.
    Open,
    /// To write a value of an address.
    Write {
        address: A,
        value: u32,
    },
    /// To write values of two addresses at once.
    WriteBoth {
        first: A,
        first_value: u32,
        second: A,
        second_value: u32,
    },
    /// To take the value of an address away.
    Forget {
        address: A,
    },
    /// To erase the lowest page that waits to be erased.
    Clean,
    /// To take the values of all addresses away at once.
    Clear,
    /// To be made of what can be read, whatever the words are.
    Rescue,
}

/// The same request with proper addresses, where it has any; `None` if the number of one is 0
/// or 65535.
pub(crate) fn proper(request: Request<u16>) -> Option<Request<Address>>
    ensures { SomeIff result (IsProperRequest request) request }
{
    match request {
        Request::Format => Some(Request::Format),
        Request::Open => Some(Request::Open),
        Request::Write { address, value } => {
            let address = Address::new(address)?;
            Some(Request::Write { address, value })
        }
        Request::WriteBoth {
            first,
            first_value,
            second,
            second_value,
        } => {
            let first = Address::new(first)?;
            let second = Address::new(second)?;
            Some(Request::WriteBoth {
                first,
                first_value,
                second,
                second_value,
            })
        }
        Request::Forget { address } => {
            let address = Address::new(address)?;
            Some(Request::Forget { address })
        }
        Request::Clean => Some(Request::Clean),
        Request::Clear => Some(Request::Clear),
        Request::Rescue => Some(Request::Rescue),
    }
}

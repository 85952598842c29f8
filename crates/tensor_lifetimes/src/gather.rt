// Gathering what the uses say of each tensor, one use after the other.
ghost use Rattle.tensor_lifetimes.specs.Gathered.{HoldsLifetimes, GoodList};

use known_lifetimes::Lifetime;
use operator_uses::GREATEST_TENSORS;
use units::Moment;
use use_rows::OperatorList;

// What a list of good uses says of each tensor: in an array of the greatest length, of which the model's tensors are used, since no library has a heap.
pub(crate) fn gather(list: &OperatorList) -> [Lifetime; GREATEST_TENSORS]
    requires { GoodList list.now.operators list.now.uses.now }
    ensures { HoldsLifetimes list.now.operators list.now.uses.now result }
{
    // What is known of a tensor before any use.
    let unknown = Lifetime {
        first: Moment(list.operators),
        end: Moment(0),
        readable: Moment(list.operators),
    };
    let mut gathered = arrays::filled(unknown);
    for k in 0..list.count() {
        let usage = list.usage(k);
        let at = usage.tensor.0;
        gathered[at] = gathered[at].with(usage, list.operators);
    }
    gathered
}

// Why a record is not taken into a list.
#[derive(Clone, Copy, PartialEq, Eq, Debug)]
pub enum InsertRefusal {
    AlreadyThere,
    Full,
}

// How much room the lists of a case and of a file have.

// One byte more than the longest book has.
pub const INPUT_LIMIT: usize = 9097;

// The largest number that a column of a case has: so many numbers or bytes are lent at the most.
pub const LENT_LIMIT: usize = 9999;

// More bytes than a group has, a file of numbers, or the book of a form that is tried number by number.
pub const FILE_ROOM: usize = 4096;

// The line under way: as many of its bytes as tell which command it is.
use buffers::ByteList;
use commands::LINE_MOST;

// One byte more than a line may have: it is then too long, however long.
const LINE_BUFFER: usize = LINE_MOST + 1;

pub type Line = ByteList<LINE_BUFFER>;

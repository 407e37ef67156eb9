//! The constants of `AsciiByte`, one for each code.

use super::AsciiByte;

impl AsciiByte {
    /// Code 0, NUL.
    pub const B0: Self = AsciiByte { value: 0 };
    /// Code 1, a start of heading.
    pub const B1: Self = AsciiByte { value: 1 };
    /// Code 2, a start of text.
    pub const B2: Self = AsciiByte { value: 2 };
    /// Code 3, an end of text.
    pub const B3: Self = AsciiByte { value: 3 };
    /// Code 4, an end of transmission.
    pub const B4: Self = AsciiByte { value: 4 };
    /// Code 5, an enquiry.
    pub const B5: Self = AsciiByte { value: 5 };
    /// Code 6, an acknowledgement.
    pub const B6: Self = AsciiByte { value: 6 };
    /// Code 7, a bell.
    pub const B7: Self = AsciiByte { value: 7 };
    /// Code 8, a backspace.
    pub const B8: Self = AsciiByte { value: 8 };
    /// Code 9, a tab.
    pub const B9: Self = AsciiByte { value: 9 };
    /// Code 10, a line feed.
    pub const B10: Self = AsciiByte { value: 10 };
    /// Code 11, a vertical tab.
    pub const B11: Self = AsciiByte { value: 11 };
    /// Code 12, a form feed.
    pub const B12: Self = AsciiByte { value: 12 };
    /// Code 13, a carriage return.
    pub const B13: Self = AsciiByte { value: 13 };
    /// Code 14, a shift out.
    pub const B14: Self = AsciiByte { value: 14 };
    /// Code 15, a shift in.
    pub const B15: Self = AsciiByte { value: 15 };
    /// Code 16, a data link escape.
    pub const B16: Self = AsciiByte { value: 16 };
    /// Code 17, a device control 1.
    pub const B17: Self = AsciiByte { value: 17 };
    /// Code 18, a device control 2.
    pub const B18: Self = AsciiByte { value: 18 };
    /// Code 19, a device control 3.
    pub const B19: Self = AsciiByte { value: 19 };
    /// Code 20, a device control 4.
    pub const B20: Self = AsciiByte { value: 20 };
    /// Code 21, a negative acknowledgement.
    pub const B21: Self = AsciiByte { value: 21 };
    /// Code 22, a synchronous idle.
    pub const B22: Self = AsciiByte { value: 22 };
    /// Code 23, an end of block.
    pub const B23: Self = AsciiByte { value: 23 };
    /// Code 24, a cancel.
    pub const B24: Self = AsciiByte { value: 24 };
    /// Code 25, an end of medium.
    pub const B25: Self = AsciiByte { value: 25 };
    /// Code 26, a substitute.
    pub const B26: Self = AsciiByte { value: 26 };
    /// Code 27, an escape.
    pub const B27: Self = AsciiByte { value: 27 };
    /// Code 28, a file separator.
    pub const B28: Self = AsciiByte { value: 28 };
    /// Code 29, a group separator.
    pub const B29: Self = AsciiByte { value: 29 };
    /// Code 30, a record separator.
    pub const B30: Self = AsciiByte { value: 30 };
    /// Code 31, a unit separator.
    pub const B31: Self = AsciiByte { value: 31 };
    /// Code 32, a space.
    pub const B32: Self = AsciiByte { value: 32 };
    /// Code 33, `!`.
    pub const B33: Self = AsciiByte { value: 33 };
    /// Code 34, `"`.
    pub const B34: Self = AsciiByte { value: 34 };
    /// Code 35, `#`.
    pub const B35: Self = AsciiByte { value: 35 };
    /// Code 36, `$`.
    pub const B36: Self = AsciiByte { value: 36 };
    /// Code 37, `%`.
    pub const B37: Self = AsciiByte { value: 37 };
    /// Code 38, `&`.
    pub const B38: Self = AsciiByte { value: 38 };
    /// Code 39, `'`.
    pub const B39: Self = AsciiByte { value: 39 };
    /// Code 40, `(`.
    pub const B40: Self = AsciiByte { value: 40 };
    /// Code 41, `)`.
    pub const B41: Self = AsciiByte { value: 41 };
    /// Code 42, `*`.
    pub const B42: Self = AsciiByte { value: 42 };
    /// Code 43, `+`.
    pub const B43: Self = AsciiByte { value: 43 };
    /// Code 44, `,`.
    pub const B44: Self = AsciiByte { value: 44 };
    /// Code 45, `-`.
    pub const B45: Self = AsciiByte { value: 45 };
    /// Code 46, `.`.
    pub const B46: Self = AsciiByte { value: 46 };
    /// Code 47, `/`.
    pub const B47: Self = AsciiByte { value: 47 };
    /// Code 48, `0`.
    pub const B48: Self = AsciiByte { value: 48 };
    /// Code 49, `1`.
    pub const B49: Self = AsciiByte { value: 49 };
    /// Code 50, `2`.
    pub const B50: Self = AsciiByte { value: 50 };
    /// Code 51, `3`.
    pub const B51: Self = AsciiByte { value: 51 };
    /// Code 52, `4`.
    pub const B52: Self = AsciiByte { value: 52 };
    /// Code 53, `5`.
    pub const B53: Self = AsciiByte { value: 53 };
    /// Code 54, `6`.
    pub const B54: Self = AsciiByte { value: 54 };
    /// Code 55, `7`.
    pub const B55: Self = AsciiByte { value: 55 };
    /// Code 56, `8`.
    pub const B56: Self = AsciiByte { value: 56 };
    /// Code 57, `9`.
    pub const B57: Self = AsciiByte { value: 57 };
    /// Code 58, `:`.
    pub const B58: Self = AsciiByte { value: 58 };
    /// Code 59, `;`.
    pub const B59: Self = AsciiByte { value: 59 };
    /// Code 60, `<`.
    pub const B60: Self = AsciiByte { value: 60 };
    /// Code 61, `=`.
    pub const B61: Self = AsciiByte { value: 61 };
    /// Code 62, `>`.
    pub const B62: Self = AsciiByte { value: 62 };
    /// Code 63, `?`.
    pub const B63: Self = AsciiByte { value: 63 };
    /// Code 64, `@`.
    pub const B64: Self = AsciiByte { value: 64 };
    /// Code 65, `A`.
    pub const B65: Self = AsciiByte { value: 65 };
    /// Code 66, `B`.
    pub const B66: Self = AsciiByte { value: 66 };
    /// Code 67, `C`.
    pub const B67: Self = AsciiByte { value: 67 };
    /// Code 68, `D`.
    pub const B68: Self = AsciiByte { value: 68 };
    /// Code 69, `E`.
    pub const B69: Self = AsciiByte { value: 69 };
    /// Code 70, `F`.
    pub const B70: Self = AsciiByte { value: 70 };
    /// Code 71, `G`.
    pub const B71: Self = AsciiByte { value: 71 };
    /// Code 72, `H`.
    pub const B72: Self = AsciiByte { value: 72 };
    /// Code 73, `I`.
    pub const B73: Self = AsciiByte { value: 73 };
    /// Code 74, `J`.
    pub const B74: Self = AsciiByte { value: 74 };
    /// Code 75, `K`.
    pub const B75: Self = AsciiByte { value: 75 };
    /// Code 76, `L`.
    pub const B76: Self = AsciiByte { value: 76 };
    /// Code 77, `M`.
    pub const B77: Self = AsciiByte { value: 77 };
    /// Code 78, `N`.
    pub const B78: Self = AsciiByte { value: 78 };
    /// Code 79, `O`.
    pub const B79: Self = AsciiByte { value: 79 };
    /// Code 80, `P`.
    pub const B80: Self = AsciiByte { value: 80 };
    /// Code 81, `Q`.
    pub const B81: Self = AsciiByte { value: 81 };
    /// Code 82, `R`.
    pub const B82: Self = AsciiByte { value: 82 };
    /// Code 83, `S`.
    pub const B83: Self = AsciiByte { value: 83 };
    /// Code 84, `T`.
    pub const B84: Self = AsciiByte { value: 84 };
    /// Code 85, `U`.
    pub const B85: Self = AsciiByte { value: 85 };
    /// Code 86, `V`.
    pub const B86: Self = AsciiByte { value: 86 };
    /// Code 87, `W`.
    pub const B87: Self = AsciiByte { value: 87 };
    /// Code 88, `X`.
    pub const B88: Self = AsciiByte { value: 88 };
    /// Code 89, `Y`.
    pub const B89: Self = AsciiByte { value: 89 };
    /// Code 90, `Z`.
    pub const B90: Self = AsciiByte { value: 90 };
    /// Code 91, `[`.
    pub const B91: Self = AsciiByte { value: 91 };
    /// Code 92, `\`.
    pub const B92: Self = AsciiByte { value: 92 };
    /// Code 93, `]`.
    pub const B93: Self = AsciiByte { value: 93 };
    /// Code 94, `^`.
    pub const B94: Self = AsciiByte { value: 94 };
    /// Code 95, `_`.
    pub const B95: Self = AsciiByte { value: 95 };
    /// Code 96, a backtick.
    pub const B96: Self = AsciiByte { value: 96 };
    /// Code 97, `a`.
    pub const B97: Self = AsciiByte { value: 97 };
    /// Code 98, `b`.
    pub const B98: Self = AsciiByte { value: 98 };
    /// Code 99, `c`.
    pub const B99: Self = AsciiByte { value: 99 };
    /// Code 100, `d`.
    pub const B100: Self = AsciiByte { value: 100 };
    /// Code 101, `e`.
    pub const B101: Self = AsciiByte { value: 101 };
    /// Code 102, `f`.
    pub const B102: Self = AsciiByte { value: 102 };
    /// Code 103, `g`.
    pub const B103: Self = AsciiByte { value: 103 };
    /// Code 104, `h`.
    pub const B104: Self = AsciiByte { value: 104 };
    /// Code 105, `i`.
    pub const B105: Self = AsciiByte { value: 105 };
    /// Code 106, `j`.
    pub const B106: Self = AsciiByte { value: 106 };
    /// Code 107, `k`.
    pub const B107: Self = AsciiByte { value: 107 };
    /// Code 108, `l`.
    pub const B108: Self = AsciiByte { value: 108 };
    /// Code 109, `m`.
    pub const B109: Self = AsciiByte { value: 109 };
    /// Code 110, `n`.
    pub const B110: Self = AsciiByte { value: 110 };
    /// Code 111, `o`.
    pub const B111: Self = AsciiByte { value: 111 };
    /// Code 112, `p`.
    pub const B112: Self = AsciiByte { value: 112 };
    /// Code 113, `q`.
    pub const B113: Self = AsciiByte { value: 113 };
    /// Code 114, `r`.
    pub const B114: Self = AsciiByte { value: 114 };
    /// Code 115, `s`.
    pub const B115: Self = AsciiByte { value: 115 };
    /// Code 116, `t`.
    pub const B116: Self = AsciiByte { value: 116 };
    /// Code 117, `u`.
    pub const B117: Self = AsciiByte { value: 117 };
    /// Code 118, `v`.
    pub const B118: Self = AsciiByte { value: 118 };
    /// Code 119, `w`.
    pub const B119: Self = AsciiByte { value: 119 };
    /// Code 120, `x`.
    pub const B120: Self = AsciiByte { value: 120 };
    /// Code 121, `y`.
    pub const B121: Self = AsciiByte { value: 121 };
    /// Code 122, `z`.
    pub const B122: Self = AsciiByte { value: 122 };
    /// Code 123, `{`.
    pub const B123: Self = AsciiByte { value: 123 };
    /// Code 124, `|`.
    pub const B124: Self = AsciiByte { value: 124 };
    /// Code 125, `}`.
    pub const B125: Self = AsciiByte { value: 125 };
    /// Code 126, `~`.
    pub const B126: Self = AsciiByte { value: 126 };
    /// Code 127, a delete.
    pub const B127: Self = AsciiByte { value: 127 };
}
